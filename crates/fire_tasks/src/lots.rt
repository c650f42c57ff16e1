// A turn over a lot of rows: they are taken at once, and fired on one after another.
ghost use Rattle.std.specs.Prelude.{◌≡◌, ◌<◌, ◌≤◌, ℕ, ℤ, List, [], ◌∷◌, ◌++◌, length, replicate, slice_get, slice_index_or, Some, None, IfOk, OnOk, IsTrue, IsFalse};
ghost use Rattle.river_base.specs.Places.{each_grew, list_at};
ghost use Rattle.river_base.specs.WideRows.{rows_type};
ghost use Rattle.river_base.specs.declared.item.Item.{Item};
ghost use Rattle.river_plan.specs.Forms.{plan_form};
ghost use Rattle.river_plan.specs.Valid.{IsPlan};
ghost use Rattle.river_rings.specs.Rows.{AreWhole, row_item, rows_in};
ghost use Rattle.fire_tasks.specs.declared.task.Task.{Task};
ghost use Rattle.fire_tasks.specs.Lots.{HasFiredRows, IsFiring};
ghost use Rattle.fire_tasks.specs.Ports.{IsIdle, known_of};
ghost use Rattle.fire_tasks.specs.Tasks.{IsTask};
ghost use Rattle.fire_tasks.specs.Turns.{AreCellsOf, HasTakenAt, HaveGained};

use crate::Task;
use crate::adding::add_rows;
use crate::ports::{pop_rows_at, room_in};
use brooklet_step::{Lines, RowLists, fire_values, next_count};
use class_locks::Pile;
use river_base::{Gate, NoMemory, Row, Rows};
use river_plan::RawPlan;
use std::alloc::Global;

/// How many rows a turn takes at most.
const LOT: usize = 64;

/// Takes rows at a port whose queue has rows of this width, where they are kept as values: as many as are there and have room where
/// the task sends, one at least, and at most 64 rows of one value, or 256 values. It fires on each, and adds the rows of all firings to the cells of the task's classes. It says whether it did: where it did not, nothing was
/// taken. Where there is no memory the cells have no entries but the operator's.
pub(crate) fn take_lot<G: Gate>(
    alloc: Global,
    plan: &RawPlan,
    task: &mut Task,
    port: u32,
    width: u32,
    pile: &mut Pile,
    gate: &G,
) -> Result<bool, NoMemory>
    requires valid { IsPlan (plan_form plan.now) }
    requires task { (adds : ℕ → List (List ℤ)) × IsTask (plan_form plan.now) adds task.old }
    requires idle { IsIdle task.old.pending }
    requires fine { task.old.bad ≡ None }
    requires port { port < length task.old.ins }
    requires known { (d : _) → 0 < length (known_of (slice_index_or task.old.ins port d)) }
    requires kind { slice_get task.old.kinds port ≡ Some (rows_type width) }
    requires some { 1 ≤ width }
    requires at_most { width ≤ 16 }
    requires pile { AreCellsOf (plan_form plan.now) task.old.classes pile.old.items }
    ensures gained { HaveGained task.old.op pile.old.items pile.new.items }
    ensures taken { IfOk result (λ took. IsTrue took → HasTakenAt (plan_form plan.now) task.old task.new pile.old.items pile.new.items) }
    ensures stays { IfOk result (λ took. IsFalse took → (task.new ≡ task.old) × (pile.new.items ≡ pile.old.items)) }
{
    if width == 1 {
        return take_narrow(alloc, plan, task, port, width, pile, gate);
    }
    take_wide(alloc, plan, task, port, width, pile, gate)
}

// The same, at most 64 values.
fn take_narrow<G: Gate>(
    alloc: Global,
    plan: &RawPlan,
    task: &mut Task,
    port: u32,
    width: u32,
    pile: &mut Pile,
    gate: &G,
) -> Result<bool, NoMemory>
    requires valid { IsPlan (plan_form plan.now) }
    requires task { (adds : ℕ → List (List ℤ)) × IsTask (plan_form plan.now) adds task.old }
    requires idle { IsIdle task.old.pending }
    requires fine { task.old.bad ≡ None }
    requires port { port < length task.old.ins }
    requires known { (d : _) → 0 < length (known_of (slice_index_or task.old.ins port d)) }
    requires kind { slice_get task.old.kinds port ≡ Some (rows_type width) }
    requires some { 1 ≤ width }
    requires at_most { width ≤ 16 }
    requires pile { AreCellsOf (plan_form plan.now) task.old.classes pile.old.items }
    ensures gained { HaveGained task.old.op pile.old.items pile.new.items }
    ensures taken { IfOk result (λ took. IsTrue took → HasTakenAt (plan_form plan.now) task.old task.new pile.old.items pile.new.items) }
    ensures stays { IfOk result (λ took. IsFalse took → (task.new ≡ task.old) × (pile.new.items ≡ pile.old.items)) }
{
    let mut values = [0; 64];
    take_rows(alloc, plan, task, port, width, &mut values, pile, gate)
}

// The same, at most 256 values.
fn take_wide<G: Gate>(
    alloc: Global,
    plan: &RawPlan,
    task: &mut Task,
    port: u32,
    width: u32,
    pile: &mut Pile,
    gate: &G,
) -> Result<bool, NoMemory>
    requires valid { IsPlan (plan_form plan.now) }
    requires task { (adds : ℕ → List (List ℤ)) × IsTask (plan_form plan.now) adds task.old }
    requires idle { IsIdle task.old.pending }
    requires fine { task.old.bad ≡ None }
    requires port { port < length task.old.ins }
    requires known { (d : _) → 0 < length (known_of (slice_index_or task.old.ins port d)) }
    requires kind { slice_get task.old.kinds port ≡ Some (rows_type width) }
    requires some { 1 ≤ width }
    requires at_most { width ≤ 16 }
    requires pile { AreCellsOf (plan_form plan.now) task.old.classes pile.old.items }
    ensures gained { HaveGained task.old.op pile.old.items pile.new.items }
    ensures taken { IfOk result (λ took. IsTrue took → HasTakenAt (plan_form plan.now) task.old task.new pile.old.items pile.new.items) }
    ensures stays { IfOk result (λ took. IsFalse took → (task.new ≡ task.old) × (pile.new.items ≡ pile.old.items)) }
{
    let mut values = [0; 256];
    take_rows(alloc, plan, task, port, width, &mut values, pile, gate)
}

// The same, at most as many values as have room.
fn take_rows<G: Gate>(
    alloc: Global,
    plan: &RawPlan,
    task: &mut Task,
    port: u32,
    width: u32,
    room: &mut [i64],
    pile: &mut Pile,
    gate: &G,
) -> Result<bool, NoMemory>
    requires valid { IsPlan (plan_form plan.now) }
    requires task { (adds : ℕ → List (List ℤ)) × IsTask (plan_form plan.now) adds task.old }
    requires idle { IsIdle task.old.pending }
    requires fine { task.old.bad ≡ None }
    requires port { port < length task.old.ins }
    requires known { (d : _) → 0 < length (known_of (slice_index_or task.old.ins port d)) }
    requires kind { slice_get task.old.kinds port ≡ Some (rows_type width) }
    requires some { 1 ≤ width }
    requires at_most { width ≤ 16 }
    requires room { 16 ≤ length room.old }
    requires pile { AreCellsOf (plan_form plan.now) task.old.classes pile.old.items }
    ensures gained { HaveGained task.old.op pile.old.items pile.new.items }
    ensures taken { IfOk result (λ took. IsTrue took → HasTakenAt (plan_form plan.now) task.old task.new pile.old.items pile.new.items) }
    ensures stays { IfOk result (λ took. IsFalse took → (task.new ≡ task.old) × (pile.new.items ≡ pile.old.items)) }
{
    let most = values_of(room_in(&task.outs, LOT), width as usize, room.len());
    let count = pop_rows_at(
        &mut task.ins,
        port as usize,
        width as usize,
        &mut room[..most],
    );
    if count == 0 {
        return Ok(false);
    }
    let op = task.op;
    let mut owed = RowLists::blanks(alloc, task.tables.len())?;
    fire_rows(
        alloc,
        plan,
        task,
        port,
        width as usize,
        &room[..count],
        &mut owed,
        gate,
    )?;
    add_rows(alloc, op, &task.tables, &mut owed, pile)?;
    Ok(true)
}

// How many values so many rows of this width have, at most as many as have room.
fn values_of(rows: usize, width: usize, room: usize) -> usize
    requires rows { (1 ≤ rows) × (rows ≤ 64) }
    requires width { (1 ≤ width) × (width ≤ 16) }
    requires room { width ≤ room }
    ensures some { width ≤ result }
    ensures at_most { result ≤ room }
{
    let mut values = width;
    for _row in 1..rows {
        if room - values < width {
            return values;
        }
        values += width;
    }
    values
}

// Fires on rows that were taken at a port, one after another. What they give is pending behind what was; their rows for tables are owed
// behind those that were.
fn fire_rows<G: Gate>(
    alloc: Global,
    plan: &RawPlan,
    task: &mut Task,
    port: u32,
    width: usize,
    values: &[i64],
    owed: &mut RowLists,
    gate: &G,
) -> Result<(), NoMemory>
    requires valid { IsPlan (plan_form plan.now) }
    requires firing { IsFiring (plan_form plan.now) port task.old owed.old }
    requires kind { slice_get task.old.kinds port ≡ Some (rows_type width) }
    requires whole { AreWhole width values.now }
    ensures ins { task.new.ins ≡ task.old.ins }
    ensures fired { (t : Task) (adds : ℕ → List (List ℤ)) (k : IsTask (plan_form plan.now) adds t) (xs : List Item)
        → HasFiredRows (plan_form plan.now) t adds k port xs task.old owed.old
        → OnOk result (HasFiredRows (plan_form plan.now) t adds k port (xs ++ rows_in width values.now) task.new owed.new) }
{
    let mut rest = values;
    while !rest.is_empty() {
        let (row, more) = rest.split_at(width);
        fire_next(alloc, plan, task, port, row, owed, gate)?;
        rest = more;
    }
    Ok(())
}

// The same with one row.
fn fire_next<G: Gate>(
    alloc: Global,
    plan: &RawPlan,
    task: &mut Task,
    port: u32,
    row: &[i64],
    owed: &mut RowLists,
    gate: &G,
) -> Result<(), NoMemory>
    requires valid { IsPlan (plan_form plan.now) }
    requires firing { IsFiring (plan_form plan.now) port task.old owed.old }
    requires kind { slice_get task.old.kinds port ≡ Some (rows_type (length row.now)) }
    requires some { 1 ≤ length row.now }
    requires at_most { length row.now ≤ 16 }
    ensures ins { task.new.ins ≡ task.old.ins }
    ensures fired { (t : Task) (adds : ℕ → List (List ℤ)) (k : IsTask (plan_form plan.now) adds t) (xs : List Item)
        → HasFiredRows (plan_form plan.now) t adds k port xs task.old owed.old
        → OnOk result (HasFiredRows (plan_form plan.now) t adds k port (xs ++ row_item row.now ∷ []) task.new owed.new) }
{
    gate.enter(task.op);
    fire_values(
        alloc,
        plan,
        task.op,
        port,
        row,
        &mut task.states,
        &mut task.out,
        &mut task.spare,
    )?;
    add_lines(&mut task.pending, &mut task.out.outs)?;
    add_lists(owed, &mut task.out.adds)?;
    task.count = next_count(task.count);
    Ok(())
}

// The items of lines go behind those of others, port by port; none is left in the lines.
fn add_lines(to: &mut Lines, from: &mut Lines) -> Result<(), NoMemory>
    requires { length from.old ≡ length to.old }
    ensures grew { OnOk result (to.new ≡ each_grew to.old (list_at from.old)) }
    ensures left { OnOk result (from.new ≡ replicate (length from.old) []) }
{
    for port in 0..to.len() {
        to.at_mut(port).take_from(from.at_mut(port))?;
    }
    Ok(())
}

// The rows of lists go behind those of others, table by table; none is left in the lists.
fn add_lists(to: &mut RowLists, from: &mut RowLists) -> Result<(), NoMemory>
    requires { length from.old ≡ length to.old }
    ensures grew { OnOk result (to.new ≡ each_grew to.old (list_at from.old)) }
    ensures left { OnOk result (from.new ≡ replicate (length from.old) []) }
{
    for table in 0..to.len() {
        move_rows(to.at_mut(table), from.at_mut(table))?;
    }
    Ok(())
}

// The rows of a list go behind those of another; none is left in the list.
fn move_rows(to: &mut Rows, from: &mut Rows) -> Result<(), NoMemory>
    ensures grew { OnOk result (to.new ≡ to.old ++ from.old) }
    ensures left { OnOk result (from.new ≡ []) }
{
    copy_rows(to, from.as_slice())?;
    from.truncate(0);
    Ok(())
}

// These rows go behind those of a list.
fn copy_rows(to: &mut Rows, rows: &[Row]) -> Result<(), NoMemory>
    ensures { OnOk result (to.new ≡ to.old ++ rows.now) }
{
    for row in rows {
        to.push(*row)?;
    }
    Ok(())
}
