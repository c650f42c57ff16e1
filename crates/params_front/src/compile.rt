// From the text of a program to its plan.
ghost use Rattle.std.specs.Prelude.{◌≡◌, ◌<◌, ◌^◌, ◌-◌, ℕ, ℤ, List, length, map, pos, IfOk, IfErr};
ghost use Rattle.streamit_text.specs.Program as plain;
ghost use Rattle.streamit_model.specs.Meaning.{program_outputs};
ghost use Rattle.streamit_front.specs.Meaning as streamit;
ghost use Rattle.params_text.specs.Program.{program_of};
ghost use Rattle.params_model.specs.Meaning.{params_outputs};
ghost use Rattle.params_front.specs.Meaning.{Elaboration, or_inner, source_unit, unit_in, compiled, Plans, Refused};

use crate::Elaborated;
use crate::elaboration::elaborate;
use crate::fault::ParamFault;
use params_text::ParamProgram;
use river_base::{Bytes, NoMemory, Numbers};
use river_plan::Plan;
use std::alloc::Global;
use streamit_front::{StreamitFault, compile_streamit};
use streamit_text::StreamitProgram;
use text_forms::TextFault;

/// The program of a text, the plain program that is made of it, and the plan of that. For each input the
/// plain program gives what the program gives.
///
/// # Errors
///
/// Those of `elaborate`, and otherwise `Inner` with what the plain program is refused for, and the unit of
/// whose instance that is; `Text` with `NoMemory` where there is no memory.
#[tactic(auto, unfolding(crate::specs::Meaning::compiled), using(crate::proofs::Compiling::compilings))]
pub fn compile_params(
    alloc: Global,
    text: &Bytes,
) -> Result<(ParamProgram, StreamitProgram, Plan), ParamFault>
    requires { length text.now < 2 ^ 32 }
    ensures plan { IfOk result (λ made. Plans (compiled text.now) (program_of made.0) (plain.program_of made.1) made.2) }
    ensures means { IfOk result (λ made. (xs : List ℤ)
        → program_outputs (plain.program_of made.1) xs ≡ params_outputs (program_of made.0) xs) }
    ensures refused { IfErr result (Refused (compiled text.now)) }
{
    let Elaborated { tree, plain, from } = elaborate(alloc, text)?;
    let (program, plan) = compile_plain(alloc, &plain, from.as_slice())?;
    Ok((tree, program, plan))
}

// What is read of the plain text, and its plan; its units are instances of these.
#[tactic(auto, using(crate::proofs::Compiling::inners))]
fn compile_plain(
    alloc: Global,
    text: &Bytes,
    from: &[i64],
) -> Result<(StreamitProgram, Plan), ParamFault>
    ensures plan { IfOk result (λ made. streamit.Plans (streamit.compiled text.now) (plain.program_of made.0) made.1) }
    ensures refused { IfErr result (λ f. (e : Elaboration) → from.now ≡ map pos e.made.from → Refused (or_inner e (streamit.compiled text.now)) f) }
{
    // A plain text of 2^32 bytes cannot be: its places would have no numbers.
    if u32::try_from(text.as_slice().len()).is_err() {
        return Err(ParamFault::Text(TextFault::NoMemory));
    }
    match compile_streamit(alloc, text) {
        Ok(made) => Ok(made),
        Err(StreamitFault::Text(TextFault::NoMemory)) => {
            Err(ParamFault::Text(TextFault::NoMemory))
        }
        Err(fault) => {
            let unit = source_unit(from, unit_in(fault))?;
            Err(ParamFault::Inner { unit, fault })
        }
    }
}

// The unit that a fault of the plain program names.
fn unit_in(fault: StreamitFault) -> u32
    ensures { result ≡ unit_in fault }
{
    match fault {
        StreamitFault::Text(TextFault::Syntax { unit })
        | StreamitFault::UnknownName { unit }
        | StreamitFault::NameTwice { unit }
        | StreamitFault::Rates { unit, .. }
        | StreamitFault::PeekRange { unit, .. }
        | StreamitFault::NotConstant { unit }
        | StreamitFault::BranchRates { unit }
        | StreamitFault::Limit { unit }
        | StreamitFault::Weights { unit } => unit,
        StreamitFault::Text(_) => 0,
    }
}

// Of which unit the plain unit with this number is an instance.
fn source_unit(from: &[i64], unit: u32) -> Result<u32, NoMemory>
    ensures { IfOk result (λ source. (units : List ℕ) → from.now ≡ map pos units → source ≡ source_unit units unit) }
{
    let place = unit.saturating_sub(1) as usize;
    if place >= from.len() {
        return Ok(0);
    }
    // A text has not so many units that their numbers do not fit.
    u32::try_from(from[place]).map_err(|_| NoMemory)
}
