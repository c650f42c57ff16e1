// The units of a text read, one after another.
ghost use Rattle.std.specs.Prelude.{◌<◌, ◌^◌, length, map};
ghost use Rattle.text_tokens.specs.Cut.{unit_tokens};
ghost use Rattle.text_tokens.specs.Tok.{tokens_of};
ghost use Rattle.text_forms.specs.Gives.{Gives, Makes};
ghost use Rattle.text_forms.specs.Parse.{Parse};
ghost use Rattle.text_forms.specs.Texts.{whole};
ghost use Rattle.text_forms.specs.AllUnits.{all_units, some_units, or_syntax, text_by, by_units, GivesText};

use crate::end::kept;
use crate::{ParseFault, Reader, TextFault};
use river_base::Bytes;
use std::alloc::Global;
use text_tokens::{Lexeme, Tokens, lex, units};

/// A language whose texts are units, of which none depends on those before it.
pub trait Units {
    type Unit: Drop;

    /// Units without their places in memory.
    ghost UnitTree: { Type 0 };

    ghost unit_tree: { Self.Unit → UnitTree };

    /// How a unit is read.
    ghost unit: { Self → Parse UnitTree };

    /// The unit that has to come next.
    fn unit(&self, reader: &mut Reader<'_>, alloc: Global) -> Result<Self::Unit, ParseFault>
        ensures { Gives unit_tree result reader.new (unit self.now reader.old) };
}

// The unit that whole tokens stand for.
#[tactic(auto, using(crate::proofs::AllUnits::whole_none))]
fn whole_unit<L: Units>(
    language: &L,
    alloc: Global,
    tokens: &[Lexeme<'_>],
) -> Result<L::Unit, ParseFault>
    ensures { Makes L.unit_tree result (whole (L.unit language.now) (tokens_of tokens.now)) }
{
    let mut reader = Reader::new(tokens);
    let unit = language.unit(&mut reader, alloc)?;
    let whole = reader.is_at_end();
    kept(unit, whole)
}

// The units that these parts of a text stand for, each as a whole.
fn read_units<L: Units>(
    language: &L,
    alloc: Global,
    parts: &[&[Lexeme<'_>]],
) -> Result<Vec<L::Unit>, TextFault>
    requires { length parts.now < 2 ^ 32 }
    ensures { GivesText (λ us. map L.unit_tree us.items) result (or_syntax (all_units (L.unit language.now) (map unit_tokens parts.now))) }
{
    let mut list = Vec::new(alloc);
    'items: for i in 0..parts.len() {
        match whole_unit(language, alloc, parts[i]) {
            Ok(unit) => list.push(unit)?,
            Err(ParseFault::Syntax) => return Err(TextFault::Syntax { unit: i as u32 + 1 }),
            Err(ParseFault::NoMemory) => return Err(TextFault::NoMemory),
        }
    }
    Ok(list)
}

// The same, where there has to be one.
#[tactic(auto, using(crate::proofs::AllUnits::some))]
fn read_one_or_more<L: Units>(
    language: &L,
    alloc: Global,
    parts: &[&[Lexeme<'_>]],
) -> Result<Vec<L::Unit>, TextFault>
    requires { length parts.now < 2 ^ 32 }
    ensures { GivesText (λ us. map L.unit_tree us.items) result (or_syntax (some_units (L.unit language.now) (map unit_tokens parts.now))) }
{
    if parts.is_empty() {
        return Err(TextFault::Syntax { unit: 1 });
    }
    read_units(language, alloc, parts)
}

/// The units of a text.
///
/// # Errors
///
/// `BadByte` or `BigNumber` with the first fault of the bytes where they have no tokens; otherwise
/// `Syntax` with the first unit, from 1, that is not in the grammar; `NoMemory` where there is no
/// memory.
#[tactic(auto, using(text_tokens::proofs::Counts::counts))]
pub fn read_bytes<L: Units>(
    language: &L,
    alloc: Global,
    text: &Bytes,
) -> Result<Vec<L::Unit>, TextFault>
    requires { length text.now < 2 ^ 32 }
    ensures { GivesText (λ us. map L.unit_tree us.items) result (text_by (by_units (all_units (L.unit language.now))) text.now) }
{
    let tokens = lex(alloc, text)?;
    let parts = units(alloc, &tokens)?;
    read_units(language, alloc, parts.as_slice())
}

/// The units of a text, of which there has to be one.
///
/// # Errors
///
/// As those of `read_bytes`; `Syntax` with unit 1 also where there is no unit.
#[tactic(auto, using(text_tokens::proofs::Counts::counts))]
pub fn read_some<L: Units>(
    language: &L,
    alloc: Global,
    text: &Bytes,
) -> Result<Vec<L::Unit>, TextFault>
    requires { length text.now < 2 ^ 32 }
    ensures { GivesText (λ us. map L.unit_tree us.items) result (text_by (by_units (some_units (L.unit language.now))) text.now) }
{
    let tokens = lex(alloc, text)?;
    read_some_of(language, alloc, &tokens)
}

/// The units of these tokens, of which there has to be one.
///
/// # Errors
///
/// `Syntax` with the first unit, from 1, that is not in the grammar, which is 1 where there is no
/// unit; `NoMemory` where there is no memory.
pub fn read_some_of<L: Units>(
    language: &L,
    alloc: Global,
    tokens: &Tokens<'_>,
) -> Result<Vec<L::Unit>, TextFault>
    requires { length tokens.now < 2 ^ 32 }
    ensures { GivesText (λ us. map L.unit_tree us.items) result (or_syntax (by_units (some_units (L.unit language.now)) tokens.now)) }
{
    let parts = units(alloc, tokens)?;
    read_one_or_more(language, alloc, parts.as_slice())
}
