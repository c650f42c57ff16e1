// From the text of a program to its tree and its plan.
ghost use Rattle.std.specs.Prelude.{◌≡◌, ◌<◌, ◌^◌, length, List, Some, IfOk, IfErr};
ghost use Rattle.cql_front.specs.Meaning.{accepted, compiled, Plans, Refused};
ghost use Rattle.cql_model.specs.Judged.{AreSpoken, HaveShortNames, refusal_of};
ghost use Rattle.cql_text.specs.Tree.{unit_forms, program_of};
ghost use Rattle.cql_text.specs.Tree as tree;

use crate::CqlFault;
use cql_build::plan;
use cql_model::{Fault, Refusal};
use cql_text::{CqlProgram, Unit, read_cql};
use river_base::Bytes;
use river_plan::Plan;
use std::alloc::Global;
use text_forms::TextFault;

/// The program of a text, and its plan.
///
/// # Errors
///
/// `Text` with the first fault of the bytes where they have no tokens; otherwise with `Syntax` and the first unit, from
/// 1, that is not in the grammar; otherwise the first fault of the program in the order in which it is read, with its
/// unit; `Text` with `NoMemory` where there is no memory.
#[tactic(auto, using(crate::proofs::Fronts::fronts))]
pub fn compile_cql(alloc: Global, text: &Bytes) -> Result<(CqlProgram, Plan), CqlFault>
    requires { length text.now < 2 ^ 32 }
    ensures plan { IfOk result (λ made. Plans (compiled text.now) (program_of made.0) made.1) }
    ensures refused { IfErr result (Refused (compiled text.now)) }
{
    let program = read_cql(alloc, text)?;
    let plan = planned(alloc, program.units.as_slice())?;
    Ok((program, plan))
}

// The plan of these units.
#[tactic(auto, using(crate::proofs::Fronts::plans))]
fn planned(alloc: Global, units: &[Unit]) -> Result<Plan, CqlFault>
    requires spoken { AreSpoken (unit_forms units.now) }
    requires short { HaveShortNames (unit_forms units.now) }
    requires few { length units.now < 2 ^ 32 }
    ensures plan { IfOk result (Plans (accepted (unit_forms units.now)) (unit_forms units.now)) }
    ensures refused { IfErr result (Refused (accepted (unit_forms units.now))) }
{
    match plan(alloc, units) {
        Ok(plan) => Ok(plan),
        Err(cql_build::Refused::Program(refusal)) => Err(fault(refusal)),
        Err(cql_build::Refused::NoMemory) => Err(CqlFault::Text(TextFault::NoMemory)),
    }
}

// The fault of a unit.
fn fault(refusal: Refusal) -> CqlFault
    requires { refusal.unit < 2 ^ 32 }
    ensures { (p : List tree.UnitForm) → refusal_of p ≡ Some refusal → Refused (accepted p) result }
{
    let unit = refusal.unit as u32;
    match refusal.fault {
        Fault::UnknownStream => CqlFault::UnknownStream { unit },
        Fault::UnknownField => CqlFault::UnknownField { unit },
        Fault::AmbiguousField => CqlFault::AmbiguousField { unit },
        Fault::NameTwice => CqlFault::NameTwice { unit },
        Fault::Limit => CqlFault::Limit { unit },
    }
}
