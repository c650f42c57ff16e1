// From the units of a program to its plan.
ghost use Rattle.river_plan.specs.Forms.{plan_form};
ghost use Rattle.saw_model.specs.Judged.{judged};
ghost use Rattle.saw_model.specs.Shallow.{AreShallowUnits};
ghost use Rattle.saw_text.specs.Tree.{unit_forms};
ghost use Rattle.saw_front.specs.Planning.{PlansBy};
ghost use Rattle.saw_front.specs.Valued.{AreValuedUnits};

use crate::Refused;
use crate::judge::Judge;
use crate::lists::lists;
use plan_check::plan_of;
use river_plan::{Plan, RawPlan};
use saw_text::Unit;
use std::alloc::Global;
use work_code::Stmts;

/// The plan of these units; or the fault that comes first, with its unit, from 1.
pub fn plan(alloc: Global, units: &[Unit]) -> Result<Plan, Refused>
    requires valued { AreValuedUnits (unit_forms units.now) }
    requires shallow { AreShallowUnits (unit_forms units.now) }
    ensures { PlansBy (λ plan. plan) result (unit_forms units.now) (judged (unit_forms units.now)) }
{
    let raw = raw(alloc, units)?;
    let plan = plan_of(alloc, raw)?;
    Ok(plan)
}

// The lists of the plan.
fn raw(alloc: Global, units: &[Unit]) -> Result<RawPlan, Refused>
    requires { AreValuedUnits (unit_forms units.now) }
    ensures { PlansBy plan_form result (unit_forms units.now) (judged (unit_forms units.now)) }
{
    let mut judge = Judge::new(alloc);
    let mut body = Stmts::new(alloc);
    judge.parts(alloc, units, &mut body)?;
    let raw = lists(alloc, units, body, judge.slots)?;
    Ok(raw)
}
