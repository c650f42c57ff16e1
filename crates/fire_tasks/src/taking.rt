// Taking an item, and firing on it.
ghost use Rattle.std.specs.Prelude.{◌≡◌, ◌+◌, ◌<◌, ◌≤◌, ℕ, ℤ, List, length, IfOk, OnOk, IfSome, IfNone, IsTrue, IsFalse, ◌↔◌, slice_get, slice_index_or, Some, None};
ghost use Rattle.river_plan.specs.Forms.{plan_form};
ghost use Rattle.river_plan.specs.Valid.{IsPlan};
ghost use Rattle.fire_tasks.specs.Ports.{IsIdle, known_of, in_ends, received_in, AllReceived};
ghost use Rattle.river_base.specs.WideRows.{rows_type};
ghost use Rattle.fire_tasks.specs.Tasks.{IsTask};
ghost use Rattle.brooklet_step.specs.Given.{IsHeldOf};
ghost use Rattle.fire_tasks.specs.Turns.{HasFiredAt, HasTakenAt, HaveGained, AreCellsOf};

use crate::adding::add_rows;
use crate::lots::take_lot;
use crate::ports::{pop_at, pop_row_at, ready_at, width_at};
use crate::{Inlet, Task};
use brooklet_step::{fire_op, fire_values, item_fits, next_count};
use class_locks::Pile;
use river_base::{Gate, Item, Listed, NoMemory, QueueType};
use river_plan::RawPlan;
use std::alloc::Global;
use std::mem::swap;

/// The first port at which an item is there.
pub(crate) fn first_ready(ins: &mut Listed<Inlet>) -> Option<usize>
    ensures same { in_ends ins.new ≡ in_ends ins.old }
    ensures received { received_in ins.new ≡ received_in ins.old }
    ensures some { IfSome result (λ port. (port < length ins.new) × ((d : _) → 0 < length (known_of (slice_index_or ins.new port d)))) }
    ensures none { IfNone result (AllReceived ins.new) }
    ensures none_before { IfNone result (AllReceived ins.old) }
{
    for port in 0..ins.len() {
        if ready_at(ins, port) {
            return Some(port);
        }
    }
    None
}

// Whether a port's queue may hold the item.
fn is_fit(kinds: &Listed<QueueType>, port: usize, item: &Item) -> bool
    requires { port < length kinds.now }
    ensures { IsTrue result ↔ IsHeldOf kinds.now port item.now }
{
    item_fits(kinds.at(port), item)
}

/// Takes the item at a port, and fires on it where its port's queue may hold it. The rows of the firing are left in the task's lists.
pub fn fire_at<G: Gate>(
    alloc: Global,
    plan: &RawPlan,
    task: &mut Task,
    port: u32,
    gate: &G,
) -> Result<(), NoMemory>
    requires valid { IsPlan (plan_form plan.now) }
    requires task { (adds : ℕ → List (List ℤ)) × IsTask (plan_form plan.now) adds task.old }
    requires idle { IsIdle task.old.pending }
    requires fine { task.old.bad ≡ None }
    requires port { port < length task.old.ins }
    requires known { (d : _) → 0 < length (known_of (slice_index_or task.old.ins port d)) }
    ensures { OnOk result (HasFiredAt (plan_form plan.now) task.old task.new) }
{
    match width_at(&task.kinds, port as usize) {
        Some(width) => fire_wide(alloc, plan, task, port, width, gate),
        None => fire_item(alloc, plan, task, port, gate),
    }
}

// The same at a port whose queue has rows of this width.
fn fire_wide<G: Gate>(
    alloc: Global,
    plan: &RawPlan,
    task: &mut Task,
    port: u32,
    width: u32,
    gate: &G,
) -> Result<(), NoMemory>
    requires valid { IsPlan (plan_form plan.now) }
    requires task { (adds : ℕ → List (List ℤ)) × IsTask (plan_form plan.now) adds task.old }
    requires idle { IsIdle task.old.pending }
    requires fine { task.old.bad ≡ None }
    requires port { port < length task.old.ins }
    requires known { (d : _) → 0 < length (known_of (slice_index_or task.old.ins port d)) }
    requires kind { slice_get task.old.kinds port ≡ Some (rows_type width) }
    requires some { 1 ≤ width }
    requires at_most { width ≤ 16 }
    ensures { OnOk result (HasFiredAt (plan_form plan.now) task.old task.new) }
{
    let mut values = [0; 16];
    if fire_row(alloc, plan, task, port, &mut values[..width as usize], gate)? {
        return Ok(());
    }
    fire_item(alloc, plan, task, port, gate)
}

// Takes the row at a port, where it has as many values as `row` and is kept as these, and fires on them as they lie. It says whether it
// did: where it did not, nothing was taken.
fn fire_row<G: Gate>(
    alloc: Global,
    plan: &RawPlan,
    task: &mut Task,
    port: u32,
    row: &mut [i64],
    gate: &G,
) -> Result<bool, NoMemory>
    requires valid { IsPlan (plan_form plan.now) }
    requires task { (adds : ℕ → List (List ℤ)) × IsTask (plan_form plan.now) adds task.old }
    requires idle { IsIdle task.old.pending }
    requires fine { task.old.bad ≡ None }
    requires port { port < length task.old.ins }
    requires known { (d : _) → 0 < length (known_of (slice_index_or task.old.ins port d)) }
    requires kind { slice_get task.old.kinds port ≡ Some (rows_type (length row.old)) }
    requires some { 1 ≤ length row.old }
    requires at_most { length row.old ≤ 16 }
    ensures fired { IfOk result (λ fired. IsTrue fired → HasFiredAt (plan_form plan.now) task.old task.new) }
    ensures stays { IfOk result (λ fired. IsFalse fired → task.new ≡ task.old) }
{
    if !pop_row_at(&mut task.ins, port as usize, row) {
        return Ok(false);
    }
    gate.enter(task.op);
    fire_values(
        alloc,
        plan,
        task.op,
        port,
        row,
        &mut task.states,
        &mut task.out,
        &mut task.spare,
    )?;
    swap(&mut task.pending, &mut task.out.outs);
    task.count = next_count(task.count);
    Ok(true)
}

// Takes the item at a port, and fires on it where its port's queue may hold it.
fn fire_item<G: Gate>(
    alloc: Global,
    plan: &RawPlan,
    task: &mut Task,
    port: u32,
    gate: &G,
) -> Result<(), NoMemory>
    requires valid { IsPlan (plan_form plan.now) }
    requires task { (adds : ℕ → List (List ℤ)) × IsTask (plan_form plan.now) adds task.old }
    requires idle { IsIdle task.old.pending }
    requires fine { task.old.bad ≡ None }
    requires port { port < length task.old.ins }
    requires known { (d : _) → 0 < length (known_of (slice_index_or task.old.ins port d)) }
    ensures { OnOk result (HasFiredAt (plan_form plan.now) task.old task.new) }
{
    let item = pop_at(alloc, &mut task.ins, port as usize)?;
    if !is_fit(&task.kinds, port as usize, &item) {
        keep_bad(&mut task.bad, port, item);
        return Ok(());
    }
    gate.enter(task.op);
    fire_op(
        alloc,
        plan,
        task.op,
        port,
        item,
        &mut task.states,
        &mut task.out,
        &mut task.spare,
    )?;
    swap(&mut task.pending, &mut task.out.outs);
    task.count = next_count(task.count);
    Ok(())
}

// An item that its port's queue may not hold is kept, with the port.
fn keep_bad(bad: &mut Option<(u32, Item)>, port: u32, item: Item)
    ensures { bad.new ≡ Some (port, item) }
{
    *bad = Some((port, item));
}

/// Takes the items at a port that can be taken at once, or the item there; fires on each, and adds the rows of the firings to the cells
/// of the task's classes. Where there is no memory the cells have no entries but the operator's.
pub(crate) fn take_at<G: Gate>(
    alloc: Global,
    plan: &RawPlan,
    task: &mut Task,
    port: u32,
    pile: &mut Pile,
    gate: &G,
) -> Result<(), NoMemory>
    requires valid { IsPlan (plan_form plan.now) }
    requires task { (adds : ℕ → List (List ℤ)) × IsTask (plan_form plan.now) adds task.old }
    requires idle { IsIdle task.old.pending }
    requires fine { task.old.bad ≡ None }
    requires port { port < length task.old.ins }
    requires known { (d : _) → 0 < length (known_of (slice_index_or task.old.ins port d)) }
    requires pile { AreCellsOf (plan_form plan.now) task.old.classes pile.old.items }
    ensures gained { HaveGained task.old.op pile.old.items pile.new.items }
    ensures taken { OnOk result (HasTakenAt (plan_form plan.now) task.old task.new pile.old.items pile.new.items) }
{
    match width_at(&task.kinds, port as usize) {
        Some(width) => take_rows_at(alloc, plan, task, port, width, pile, gate),
        None => take_item(alloc, plan, task, port, pile, gate),
    }
}

// The same at a port whose queue has rows of this width.
fn take_rows_at<G: Gate>(
    alloc: Global,
    plan: &RawPlan,
    task: &mut Task,
    port: u32,
    width: u32,
    pile: &mut Pile,
    gate: &G,
) -> Result<(), NoMemory>
    requires valid { IsPlan (plan_form plan.now) }
    requires task { (adds : ℕ → List (List ℤ)) × IsTask (plan_form plan.now) adds task.old }
    requires idle { IsIdle task.old.pending }
    requires fine { task.old.bad ≡ None }
    requires port { port < length task.old.ins }
    requires known { (d : _) → 0 < length (known_of (slice_index_or task.old.ins port d)) }
    requires kind { slice_get task.old.kinds port ≡ Some (rows_type width) }
    requires some { 1 ≤ width }
    requires at_most { width ≤ 16 }
    requires pile { AreCellsOf (plan_form plan.now) task.old.classes pile.old.items }
    ensures gained { HaveGained task.old.op pile.old.items pile.new.items }
    ensures taken { OnOk result (HasTakenAt (plan_form plan.now) task.old task.new pile.old.items pile.new.items) }
{
    if take_lot(alloc, plan, task, port, width, pile, gate)? {
        return Ok(());
    }
    take_item(alloc, plan, task, port, pile, gate)
}

// Takes the item at a port, fires on it, and adds the rows of the firing to the cells of the task's classes.
fn take_item<G: Gate>(
    alloc: Global,
    plan: &RawPlan,
    task: &mut Task,
    port: u32,
    pile: &mut Pile,
    gate: &G,
) -> Result<(), NoMemory>
    requires valid { IsPlan (plan_form plan.now) }
    requires task { (adds : ℕ → List (List ℤ)) × IsTask (plan_form plan.now) adds task.old }
    requires idle { IsIdle task.old.pending }
    requires fine { task.old.bad ≡ None }
    requires port { port < length task.old.ins }
    requires known { (d : _) → 0 < length (known_of (slice_index_or task.old.ins port d)) }
    requires pile { AreCellsOf (plan_form plan.now) task.old.classes pile.old.items }
    ensures gained { HaveGained task.old.op pile.old.items pile.new.items }
    ensures taken { OnOk result (HasTakenAt (plan_form plan.now) task.old task.new pile.old.items pile.new.items) }
{
    let op = task.op;
    fire_at(alloc, plan, task, port, gate)?;
    add_rows(alloc, op, &task.tables, &mut task.out.adds, pile)?;
    Ok(())
}
