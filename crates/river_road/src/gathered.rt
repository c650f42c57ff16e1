// A plan that is ready to be run.
ghost use Rattle.std.specs.Prelude.{IfOk};
ghost use Rattle.river_road.specs.Supplied.{HasFiles};

use crate::content::FileContent;
use crate::item_lists::inputs_of;
use brooklet_step::Lines;
use river_base::{Listed, NoMemory};
use river_plan::{Caps, Plan};
use std::alloc::Global;

/// A plan that is ready to be run.
#[derive(Drop)]
pub struct Gathered {
    /// The plan.
    pub plan: Plan,
    /// The capacities that its program gives to its queues.
    pub caps: Caps,
    /// The items of its inputs.
    pub inputs: Lines,
}

impl Gathered {
    // The plan, over what the files of its inputs have.
    pub(crate) fn over(
        alloc: Global,
        plan: Plan,
        caps: Caps,
        files: Listed<FileContent>,
    ) -> Result<Gathered, NoMemory>
        ensures { IfOk result (HasFiles plan caps files) }
    {
        let inputs = inputs_of(alloc, files)?;
        Ok(Gathered { plan, caps, inputs })
    }
}
