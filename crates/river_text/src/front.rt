// From a text to its plan.
ghost use Rattle.std.specs.Prelude.{◌≡◌, ◌<◌, ◌^◌, length, Ok, IfOk, IfErr};
ghost use Rattle.river_plan.specs.Caps.{AreCaps};
ghost use Rattle.river_text.specs.Checked.{text_form_of};
ghost use Rattle.river_text.specs.Meaning.{plan_in, Refused};

use crate::{RiverFault, RiverText, read_river};
use plan_check::check;
use river_base::Bytes;
use river_plan::{Caps, Plan};
use std::alloc::Global;

/// The plan of a River text and the capacities that the text gives to its queues.
#[derive(Drop)]
pub struct RiverPlan {
    pub plan: Plan,
    pub caps: Caps,
}

/// The plan of a River text (the River language of Soulé and others, DEBS 2012) and the capacities of its
/// queues: the text is read, and its lists are checked.
///
/// # Errors
///
/// `Text` where the text is not in the grammar; otherwise `Plan` with the first fault of its lists; `NoMemory` where
/// there is no memory.
#[tactic(auto, using(crate::proofs::Fronts::fronts))]
pub fn compile_river(alloc: Global, text: &Bytes) -> Result<RiverPlan, RiverFault>
    requires { length text.now < 2 ^ 32 }
    ensures plan { IfOk result (λ read. plan_in text.now ≡ Ok (text_form_of read)) }
    ensures caps { IfOk result (λ read. AreCaps read.caps) }
    ensures refused { IfErr result (Refused (plan_in text.now)) }
{
    let RiverText { raw, caps } = read_river(alloc, text)?;
    let plan = check(alloc, raw)?;
    Ok(RiverPlan { plan, caps })
}
