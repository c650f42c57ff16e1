// A firing of an operator of a plan.
ghost use Rattle.std.specs.Prelude.{◌≤◌, length, OnOk};
ghost use Rattle.river_base.specs.declared.item.Item.TheVariants as variant;
ghost use Rattle.river_base.specs.declared.item.Flat.TheVariants as flat;
ghost use Rattle.river_plan.specs.Forms.{plan_form};
ghost use Rattle.brooklet_step.specs.Reading.{CanFire, IsBlankOf, FiredOp};

use crate::emit::Spare;
use crate::firing::{fire_again, fire_row};
use crate::{Emit, States};
use river_base::{Item, NoMemory};
use river_plan::RawPlan;
use std::alloc::Global;

/// What an operator gives for an item at one of its ports, of a plan that is given by its lists. Lists that earlier firings used are
/// used again. Where there is no memory, nothing is said of the states and the lists.
pub fn fire_op(
    alloc: Global,
    raw: &RawPlan,
    op: u32,
    port: u32,
    item: Item,
    states: &mut States,
    out: &mut Emit,
    spare: &mut Spare,
) -> Result<(), NoMemory>
    requires can { CanFire (plan_form raw.now) op port item states.old }
    requires blank { IsBlankOf (plan_form raw.now) op out.old }
    ensures { OnOk result (FiredOp (plan_form raw.now) op port item states.old states.new out.new) }
{
    let kernel = &raw.ops.at(op as usize).kernel;
    fire_again(alloc, kernel, port, item, states, out, spare)
}

/// The same, where the item is the row of these 1 to 16 values: a body or a filter runs on them as they lie.
pub fn fire_values(
    alloc: Global,
    raw: &RawPlan,
    op: u32,
    port: u32,
    row: &[i64],
    states: &mut States,
    out: &mut Emit,
    spare: &mut Spare,
) -> Result<(), NoMemory>
    requires some { 1 ≤ length row.now }
    requires at_most { length row.now ≤ 16 }
    requires can { CanFire (plan_form raw.now) op port (variant.Flat (flat.One row.now)) states.old }
    requires blank { IsBlankOf (plan_form raw.now) op out.old }
    ensures { OnOk result (FiredOp (plan_form raw.now) op port (variant.Flat (flat.One row.now)) states.old states.new out.new) }
{
    let kernel = &raw.ops.at(op as usize).kernel;
    fire_row(alloc, kernel, port, row, states, out, spare)
}
