// How many bytes the units of a text have.
ghost use Rattle.std.specs.Prelude.{◌≡◌, map, IfOk};
ghost use Rattle.text_tokens.specs.Cut.{unit_tokens};
ghost use Rattle.text_tokens.specs.Tok.{mark_of};
ghost use Rattle.params_front.specs.Sizes.{bytes_of, bytes_of_each, sizes_of};

use river_base::NoMemory;
use std::alloc::Global;
use text_tokens::{Lexeme, Tokens, units};

/// How many bytes each unit of these tokens has, from the first byte of its first token to the last
/// byte of its last.
pub(crate) fn sizes(alloc: Global, tokens: &Tokens<'_>) -> Result<Vec<usize>, NoMemory>
    ensures { IfOk result (λ sizes. sizes.items ≡ sizes_of tokens.now) }
{
    let units = units(alloc, tokens)?;
    each_size(alloc, units.as_slice(), tokens.as_slice())
}

// Of units that have these tokens one after another.
fn each_size(
    alloc: Global,
    units: &[&[Lexeme<'_>]],
    tokens: &[Lexeme<'_>],
) -> Result<Vec<usize>, NoMemory>
    ensures { IfOk result (λ sizes. sizes.items ≡ bytes_of_each (map unit_tokens units.now) (map mark_of tokens.now)) }
{
    let mut sizes = Vec::new(alloc);
    let mut at = 0;
    'units: for each in units {
        let (_, rest) = tokens.split_at(at);
        let len = each.len().min(rest.len());
        let (unit, _) = rest.split_at(len);
        sizes.push(size(unit))?;
        at += len;
    }
    Ok(sizes)
}

// Of a unit that has these tokens.
fn size(unit: &[Lexeme<'_>]) -> usize
    ensures { result ≡ bytes_of (map mark_of unit.now) }
{
    if unit.is_empty() {
        return 0;
    }
    let last = unit[unit.len() - 1];
    last.end.saturating_sub(unit[0].start) as usize
}
