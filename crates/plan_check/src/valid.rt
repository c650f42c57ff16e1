// The plan of lists that are valid.
ghost use Rattle.std.specs.Prelude.{◌≡◌, IfOk};
ghost use Rattle.river_plan.specs.Forms.{plan_form};
ghost use Rattle.river_plan.specs.Valid.{IsPlan};

use crate::judge::check;
use river_base::NoMemory;
use river_plan::{Plan, PlanFault, RawPlan};
use std::alloc::Global;

/// The plan of lists that are valid. The check finds no fault in them: an error is want of memory.
#[tactic(auto, using(crate::proofs::Faultless::faultless))]
pub fn plan_of(alloc: Global, lists: RawPlan) -> Result<Plan, NoMemory>
    requires { IsPlan (plan_form lists) }
    ensures { IfOk result (λ plan. plan ≡ plan_form lists) }
{
    match check(alloc, lists) {
        Ok(plan) => Ok(plan),
        Err(PlanFault::NoMemory) => Err(NoMemory),
        Err(_) => unreachable!(),
    }
}
