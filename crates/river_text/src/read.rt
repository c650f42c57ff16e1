// From a text to the lists of a plan.
ghost use Rattle.std.specs.Prelude.{◌≡◌, ◌<◌, ◌^◌, length, map, IfOk, IfErr};
ghost use Rattle.text_tokens.specs.Cut.{units_of, unit_tokens};
ghost use Rattle.text_tokens.specs.Tok.{toks, mark_of};
ghost use Rattle.text_forms.specs.AllUnits.{or_syntax, GivesText};
ghost use Rattle.river_text.specs.Entries.{text_form};
ghost use Rattle.river_text.specs.Plans.{IsText, empty_text, first_place, is_second_short};
ghost use Rattle.river_text.specs.ReadPlans.{read_plan, lists_of};
ghost use Rattle.river_text.specs.Faults.{Refuses};

use crate::entry::{Place, RiverText, whole_entry};
use river_base::Bytes;
use river_plan::{Caps, RawPlan};
use std::alloc::Global;
use text_forms::{ParseFault, TextFault};
use text_tokens::{Lexeme, Tokens, UnitList, lex, units};

/// The lists of the plan that a text stands for (the River language of Soulé and others, DEBS 2012), and
/// the capacities of its queues, an entry for each `cap`, in order.
///
/// # Errors
///
/// `BadByte` or `BigNumber` with the first fault of the bytes where they have no tokens; otherwise
/// `Syntax` with the first unit, from 1, that is not in the grammar; `NoMemory` where there is no
/// memory.
#[tactic(auto, using(crate::proofs::Texts::texts, text_tokens::proofs::Counts::counts))]
pub fn read_river(alloc: Global, text: &Bytes) -> Result<RiverText, TextFault>
    requires { length text.now < 2 ^ 32 }
    ensures read { IfOk result (λ read. IsText text.now (text_form read)) }
    ensures refused { IfErr result (Refuses text.now) }
{
    let tokens = lex(alloc, text)?;
    read_tokens(alloc, &tokens)
}

// What the tokens of a text stand for.
#[tactic(auto, using(text_tokens::proofs::Counts::counts))]
fn read_tokens(alloc: Global, tokens: &Tokens<'_>) -> Result<RiverText, TextFault>
    requires { length tokens.now < 2 ^ 32 }
    ensures { GivesText text_form result (or_syntax (lists_of tokens.now)) }
{
    let first = first_place(tokens);
    let units = units(alloc, tokens)?;
    read_units(alloc, &units, first)
}

// Where a text begins: a header may come where the second token is one byte long.
fn first_place(tokens: &Tokens<'_>) -> Place
    ensures { result ≡ first_place tokens.now }
{
    Place {
        stage: if is_second_short(tokens.as_slice()) {
            0
        } else {
            1
        },
        headed: false,
    }
}

// Whether the second token is one byte long.
fn is_second_short(lexemes: &[Lexeme<'_>]) -> bool
    ensures { result ≡ is_second_short (map mark_of lexemes.now) }
{
    match lexemes {
        [_, second, ..] => second.end as u64 == second.start as u64 + 1,
        _ => false,
    }
}

// What the units of a text stand for.
fn read_units(alloc: Global, units: &UnitList<'_>, first: Place) -> Result<RiverText, TextFault>
    requires { length units.now < 2 ^ 32 }
    ensures { GivesText text_form result (or_syntax (read_plan first 1 empty_text units.now)) }
{
    let mut text = RiverText {
        raw: RawPlan::new(alloc),
        caps: Caps::new(alloc),
    };
    add_units(alloc, units.as_slice(), first, &mut text)?;
    Ok(text)
}

// Puts what the units of a text say into what it stands for.
fn add_units(
    alloc: Global,
    parts: &[&[Lexeme<'_>]],
    first: Place,
    text: &mut RiverText,
) -> Result<(), TextFault>
    requires { length parts.now < 2 ^ 32 }
    ensures { GivesText (λ u. text_form text.new) result (or_syntax (read_plan first 1 (text_form text.old) (map unit_tokens parts.now))) }
{
    let mut place = first;
    'items: for i in 0..parts.len() {
        match whole_entry(alloc, parts[i], place) {
            Ok(entry) => {
                place = entry.next_place(place);
                entry.add_to(text)?;
            }
            Err(ParseFault::Syntax) => return Err(TextFault::Syntax { unit: i as u32 + 1 }),
            Err(ParseFault::NoMemory) => return Err(TextFault::NoMemory),
        }
    }
    Ok(())
}
