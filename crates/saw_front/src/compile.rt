// From the text of a program to its tree and its plan.
ghost use Rattle.std.specs.Prelude.{◌≡◌, ◌<◌, ◌^◌, List, length, IfOk, IfErr, Err};
ghost use Rattle.saw_model.specs.Judged.{judged};
ghost use Rattle.saw_model.specs.Shallow.{AreShallowUnits};
ghost use Rattle.saw_text.specs.Tree.{UnitForm, unit_forms, program_of};
ghost use Rattle.saw_front.specs.Meaning.{accepted, compiled, Plans, Refused};
ghost use Rattle.saw_front.specs.Valued.{AreValuedUnits};

use crate::{SawFault, plan, refused};
use river_base::Bytes;
use river_plan::Plan;
use saw_model::{Fault, Refusal};
use saw_text::{SawProgram, Unit, read_sawzall};
use std::alloc::Global;
use text_forms::TextFault;

/// The program of a text, and its plan.
///
/// # Errors
///
/// `Text` with the first fault of the bytes where they have no tokens; otherwise with `Syntax` and the first unit, from
/// 1, that is not in the grammar; otherwise the first fault of the program in the order in which it is read, with its
/// unit; `Text` with `NoMemory` where there is no memory.
#[tactic(auto, using(crate::proofs::Fronts::fronts))]
pub fn compile_sawzall(alloc: Global, text: &Bytes) -> Result<(SawProgram, Plan), SawFault>
    requires { length text.now < 2 ^ 32 }
    ensures plan { IfOk result (λ made. Plans (compiled text.now) (program_of made.0) made.1) }
    ensures refused { IfErr result (Refused (compiled text.now)) }
{
    let program = read_sawzall(alloc, text)?;
    let plan = planned(alloc, program.units.as_slice())?;
    Ok((program, plan))
}

// The plan of these units.
#[tactic(auto, using(crate::proofs::Fronts::plans))]
fn planned(alloc: Global, units: &[Unit]) -> Result<Plan, SawFault>
    requires valued { AreValuedUnits (unit_forms units.now) }
    requires shallow { AreShallowUnits (unit_forms units.now) }
    ensures plan { IfOk result (Plans (accepted (unit_forms units.now)) (unit_forms units.now)) }
    ensures refused { IfErr result (Refused (accepted (unit_forms units.now))) }
{
    match plan(alloc, units) {
        Ok(plan) => Ok(plan),
        Err(refused::Refused::Program(refusal)) => Err(fault(refusal)),
        Err(refused::Refused::NoMemory) => Err(SawFault::Text(TextFault::NoMemory)),
    }
}

// The fault of a unit; where its number has no place, there was no memory for so many.
fn fault(refusal: Refusal) -> SawFault
    ensures { (us : List UnitForm) → judged us ≡ Err refusal → Refused (accepted us) result }
{
    let Ok(unit) = u32::try_from(refusal.unit) else {
        return SawFault::Text(TextFault::NoMemory);
    };
    match refusal.fault {
        Fault::UnknownName => SawFault::UnknownName { unit },
        Fault::NameTwice => SawFault::NameTwice { unit },
        Fault::Shape => SawFault::Shape { unit },
        Fault::Limit => SawFault::Limit { unit },
    }
}
