// Steps applied one after another.
ghost use Rattle.std.specs.Prelude.{◌≡◌, ◌<◌, ◌^◌, length, Ok, IfOk, IfErr};
ghost use Rattle.plan_edits.specs.Answered.{IsAnswered};
ghost use Rattle.river_script.specs.Meaning.{rewritten, Refused, IsEnded, from_step};
ghost use Rattle.river_script.specs.Script.{after_step};
ghost use Rattle.river_script.specs.Steps.{step_form, step_forms};

use crate::ScriptFault;
use crate::read::read_script;
use crate::step::{Step, Steps};
use plan_edits::Unfit;
use river_base::Bytes;
use river_plan::Plan;
use rw_fission::fission;
use rw_local::{fuse, hoist};
use std::alloc::Global;
use text_forms::TextFault;

/// The plan after the steps of a script, of which the whole is read before its first step is applied.
///
/// # Errors
///
/// `Text` where the text is not in the grammar; otherwise `Unfit` with the first step that fails and its condition;
/// `Text` with `NoMemory` where there is no memory.
#[tactic(auto, using(crate::proofs::Fronts::fronts))]
pub fn apply_script(alloc: Global, plan: &Plan, text: &Bytes) -> Result<Plan, ScriptFault>
    requires { length text.now < 2 ^ 32 }
    ensures plan { IfOk result (λ made. rewritten plan.now text.now ≡ Ok made) }
    ensures refused { IfErr result (Refused (rewritten plan.now text.now)) }
{
    let steps = read_script(alloc, text)?;
    apply_steps(alloc, plan, &steps)
}

// The plan after these steps.
fn apply_steps(alloc: Global, plan: &Plan, steps: &Steps) -> Result<Plan, ScriptFault>
    requires { length steps.now < 2 ^ 32 }
    ensures { IsEnded plan.now (step_forms steps.now) result }
{
    let mut now = plan.copy(alloc)?;
    let mut number = 0;
    for step in steps.as_slice() {
        number += 1;
        now = match apply(alloc, &now, *step) {
            Ok(next) => next,
            Err(why) => return Err(failed(number, why)),
        };
    }
    Ok(now)
}

// The fault of the step of this number.
fn failed(step: u32, why: Unfit) -> ScriptFault
    ensures { result ≡ from_step step why }
{
    match why {
        Unfit::NoMemory => ScriptFault::Text(TextFault::NoMemory),
        why => ScriptFault::Unfit { step, why },
    }
}

// The plan after the step.
fn apply(alloc: Global, plan: &Plan, step: Step) -> Result<Plan, Unfit>
    ensures { IsAnswered (after_step plan.now (step_form step)) result }
{
    match step {
        Step::Fuse(queue) => fuse(alloc, plan, &queue),
        Step::Hoist(label) => hoist(alloc, plan, &label),
        Step::Fission { label, n } => fission(alloc, plan, &label, n),
    }
}
