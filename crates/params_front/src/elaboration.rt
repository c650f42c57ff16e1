// From the text of a program to the text of its plain program.
ghost use Rattle.std.specs.Prelude.{◌≡◌, ◌<◌, ◌^◌, ℕ, List, length, IfOk, IfErr, Err};
ghost use Rattle.params_text.specs.Faults.{StandFor};
ghost use Rattle.params_text.specs.Program.{unit_forms};
ghost use Rattle.params_text.specs.Program as text;
ghost use Rattle.params_model.specs.Constants.{AreFitUnits};
ghost use Rattle.params_model.specs.Judged.{elaborated_program};
ghost use Rattle.params_front.specs.Written.{MakesText};
ghost use Rattle.params_front.specs.Meaning.{or_fault, of_tokens, elaboration, WritesPlainText, Elaborates, StandsForMade, Refused};

use crate::fault::ParamFault;
use crate::sizes::sizes;
use crate::{Elaborated, Written, made};
use params_build::{judged, top};
use params_model::{Fault, Refusal};
use params_text::{ParamProgram, Unit, read_params};
use river_base::Bytes;
use std::alloc::Global;
use text_forms::TextFault;
use text_tokens::{Tokens, lex};

/// The program of a text, and the text of the plain program that is made of it: an instance of its last
/// stream, and one for each `add` that is met, children before their parent. It means what the program
/// means.
///
/// # Errors
///
/// `Text` with the first fault of the bytes where they have no tokens; otherwise with `Syntax` and the first
/// unit, from 1, that is not in the grammar; otherwise the first fault of the program in the order in which
/// it is read, with its unit; otherwise `Top`; otherwise the first fault in the order in which instances are
/// made, with the unit of which one was to be made; `Text` with `NoMemory` where there is no memory.
#[tactic(auto, unfolding(crate::specs::Meaning::elaboration), using(text_tokens::proofs::Counts::counts, crate::proofs::Fronts::lexings))]
pub fn elaborate(alloc: Global, text: &Bytes) -> Result<Elaborated, ParamFault>
    requires { length text.now < 2 ^ 32 }
    ensures made { IfOk result (Elaborates (elaboration text.now)) }
    ensures plain { IfOk result (λ e. StandsForMade (elaboration text.now) e.plain) }
    ensures refused { IfErr result (Refused (elaboration text.now)) }
{
    match lex(alloc, text) {
        Ok(tokens) => elaborate_tokens(alloc, &tokens),
        Err(lexical) => Err(ParamFault::Text(TextFault::from(lexical))),
    }
}

// The program of the tokens of a text, and what is made of it; or why there is none.
#[tactic(auto, using(crate::proofs::Fronts::fronts))]
fn elaborate_tokens(alloc: Global, tokens: &Tokens<'_>) -> Result<Elaborated, ParamFault>
    requires { length tokens.now < 2 ^ 32 }
    ensures made { IfOk result (Elaborates (of_tokens tokens.now)) }
    ensures refused { IfErr result (Refused (of_tokens tokens.now)) }
{
    let units = read_params(alloc, tokens)?;
    let Written { plain, from } = written(alloc, tokens, units.as_slice())?;
    Ok(Elaborated {
        tree: ParamProgram { units },
        plain,
        from,
    })
}

// What is made of the units that were read of these tokens.
#[tactic(auto, using(crate::proofs::Fronts::writings))]
fn written(alloc: Global, tokens: &Tokens<'_>, units: &[Unit]) -> Result<Written, ParamFault>
    requires few { length tokens.now < 2 ^ 32 }
    requires read { StandFor tokens.now (unit_forms units.now) }
    ensures made { IfOk result (λ w. WritesPlainText (of_tokens tokens.now) (unit_forms units.now) w.plain w.from) }
    ensures refused { IfErr result (Refused (of_tokens tokens.now)) }
{
    let sizes = sizes(alloc, tokens)?;
    match made_of(alloc, units, sizes.as_slice()) {
        Ok(written) => Ok(written),
        Err(params_build::Refused::Program(refusal)) => Err(fault(refusal)),
        Err(params_build::Refused::NoMemory) => Err(ParamFault::Text(TextFault::NoMemory)),
    }
}

// What is made of units that have so many bytes.
#[tactic(auto, using(crate::proofs::Fronts::makings))]
fn made_of(alloc: Global, units: &[Unit], sizes: &[usize]) -> Result<Written, params_build::Refused>
    requires fit { AreFitUnits (unit_forms units.now) }
    requires few { length units.now < 2 ^ 32 }
    ensures { MakesText result (elaborated_program (unit_forms units.now) sizes.now) }
{
    judged(alloc, units)?;
    top(units)?;
    made(alloc, units, sizes)
}

// The fault of a unit.
fn fault(refusal: Refusal) -> ParamFault
    ensures { (p : text.ParamProgram) (sizes : List ℕ) → elaborated_program p sizes ≡ Err refusal → Refused (or_fault p (elaborated_program p sizes)) result }
{
    let unit = refusal.unit;
    match refusal.fault {
        Fault::UnknownName => ParamFault::UnknownName { unit },
        Fault::NameTwice => ParamFault::NameTwice { unit },
        Fault::Arity => ParamFault::Arity { unit },
        Fault::NotConstant => ParamFault::NotConstant { unit },
        Fault::Top => ParamFault::Top { unit },
        Fault::Range => ParamFault::Range { unit },
        Fault::Empty => ParamFault::Empty { unit },
        Fault::Budget => ParamFault::Budget { unit },
    }
}
