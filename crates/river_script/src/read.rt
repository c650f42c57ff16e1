// From a text to steps.
ghost use Rattle.std.specs.Prelude.{◌<◌, ◌^◌, length, IfOk, IfErr};
ghost use Rattle.text_forms.specs.AllUnits.{or_syntax, by_units, GivesText};
ghost use Rattle.river_script.specs.Grammar.{IsScript};
ghost use Rattle.river_script.specs.Meaning.{IsUnread};
ghost use Rattle.river_script.specs.Reading.{steps_of};
ghost use Rattle.river_script.specs.Steps.{step_forms};

use crate::step::{Steps, whole_step};
use river_base::Bytes;
use std::alloc::Global;
use text_forms::{ParseFault, TextFault};
use text_tokens::{Tokens, UnitList, lex, units};

/// The steps that a text stands for.
#[tactic(auto, using(crate::proofs::Fronts::reads, text_tokens::proofs::Counts::counts))]
pub(crate) fn read_script(alloc: Global, text: &Bytes) -> Result<Steps, TextFault>
    requires { length text.now < 2 ^ 32 }
    ensures read { IfOk result (λ steps. IsScript text.now (step_forms steps)) }
    ensures few { IfOk result (λ steps. length steps < 2 ^ 32) }
    ensures refused { IfErr result (IsUnread text.now) }
{
    let tokens = lex(alloc, text)?;
    read_tokens(alloc, &tokens)
}

// The steps of the tokens of a text.
#[tactic(auto, using(text_tokens::proofs::Counts::counts))]
fn read_tokens(alloc: Global, tokens: &Tokens<'_>) -> Result<Steps, TextFault>
    requires { length tokens.now < 2 ^ 32 }
    ensures { GivesText step_forms result (or_syntax (by_units steps_of tokens.now)) }
{
    let units = units(alloc, tokens)?;
    read_units(alloc, &units)
}

// The steps of the units of a text.
fn read_units(alloc: Global, units: &UnitList<'_>) -> Result<Steps, TextFault>
    requires { length units.now < 2 ^ 32 }
    ensures { GivesText step_forms result (or_syntax (steps_of units.now)) }
{
    let parts = units.as_slice();
    let mut steps = Steps::new(alloc);
    'items: for i in 0..parts.len() {
        match whole_step(parts[i]) {
            Ok(step) => steps.push(step)?,
            Err(ParseFault::Syntax) => return Err(TextFault::Syntax { unit: i as u32 + 1 }),
            Err(ParseFault::NoMemory) => return Err(TextFault::NoMemory),
        }
    }
    Ok(steps)
}
