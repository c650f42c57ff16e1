// From the text of a program to its tree and its plan.
ghost use Rattle.std.specs.Prelude.{◌≡◌, ◌<◌, ◌^◌, length, IfOk, IfErr, Err};
ghost use Rattle.streamit_text.specs.Program.{Program, unit_forms, program_of};
ghost use Rattle.streamit_model.specs.Shallow.{AreShallowUnits};
ghost use Rattle.streamit_model.specs.Judged.{judged};
ghost use Rattle.streamit_build.specs.Readable.{AreReadable};
ghost use Rattle.streamit_front.specs.Meaning.{accepted, compiled, Plans, Refused};

use crate::StreamitFault;
use river_base::Bytes;
use river_plan::Plan;
use std::alloc::Global;
use streamit_build::plan;
use streamit_model::{Fault, Refusal};
use streamit_text::{StreamitProgram, Unit, read_streamit};
use text_forms::TextFault;

/// The program of a text, and the plan of the stream that it declares last.
///
/// # Errors
///
/// `Text` with the first fault of the bytes where they have no tokens; otherwise with `Syntax` and the first unit, from
/// 1, that is not in the grammar; otherwise the first fault of the program in the order in which it is read, with its
/// unit; `Text` with `NoMemory` where there is no memory.
#[tactic(auto, using(crate::proofs::Fronts::fronts))]
pub fn compile_streamit(
    alloc: Global,
    text: &Bytes,
) -> Result<(StreamitProgram, Plan), StreamitFault>
    requires { length text.now < 2 ^ 32 }
    ensures plan { IfOk result (λ made. Plans (compiled text.now) (program_of made.0) made.1) }
    ensures refused { IfErr result (Refused (compiled text.now)) }
{
    let program = read_streamit(alloc, text)?;
    let plan = planned(alloc, program.units.as_slice())?;
    Ok((program, plan))
}

// The plan of the last of these units.
#[tactic(auto, using(crate::proofs::Fronts::plans))]
fn planned(alloc: Global, units: &[Unit]) -> Result<Plan, StreamitFault>
    requires readable { AreReadable (unit_forms units.now) }
    requires shallow { AreShallowUnits (unit_forms units.now) }
    requires some { 0 < length units.now }
    requires few { length units.now < 2 ^ 32 }
    ensures plan { IfOk result (Plans (accepted (unit_forms units.now)) (unit_forms units.now)) }
    ensures refused { IfErr result (Refused (accepted (unit_forms units.now))) }
{
    match plan(alloc, units) {
        Ok(plan) => Ok(plan),
        Err(streamit_build::Refused::Program(refusal)) => Err(fault(refusal)),
        Err(streamit_build::Refused::NoMemory) => Err(StreamitFault::Text(TextFault::NoMemory)),
    }
}

// The fault of a unit.
fn fault(refusal: Refusal) -> StreamitFault
    ensures { (p : Program) → judged p ≡ Err refusal → Refused (accepted p) result }
{
    let unit = refusal.unit;
    match refusal.fault {
        Fault::UnknownName => StreamitFault::UnknownName { unit },
        Fault::NameTwice => StreamitFault::NameTwice { unit },
        Fault::Rates { declared, counted } => StreamitFault::Rates {
            unit,
            declared,
            counted,
        },
        Fault::PeekRange { index, peek } => StreamitFault::PeekRange { unit, index, peek },
        Fault::NotConstant => StreamitFault::NotConstant { unit },
        Fault::BranchRates => StreamitFault::BranchRates { unit },
        Fault::Limit => StreamitFault::Limit { unit },
        Fault::Weights => StreamitFault::Weights { unit },
    }
}
