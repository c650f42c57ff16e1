// One move.
ghost use Rattle.std.specs.Prelude.{◌≡◌, ◌+◌, ◌<◌, ◌^◌, ℕ, ℤ, None, List, [], length, map, false, true, IfOk, OnOk, OnErr, IsFalse, IsTrue, slice_index_or};
ghost use Rattle.river_base.specs.Places.{list_at};
ghost use Rattle.river_plan.specs.Forms.{plan_form};
ghost use Rattle.river_plan.specs.Valid.{IsPlan};
ghost use Rattle.fire_tasks.specs.Adds.{added, logs_of};
ghost use Rattle.fire_tasks.specs.Bundles.{AllGoOn};
ghost use Rattle.fire_tasks.specs.Ports.{IsIdle, MaySendAll, known_of};
ghost use Rattle.fire_tasks.specs.Tasks.{IsTask, IsDone, ends_of, all_ends, moves, all_moves};
ghost use Rattle.fire_tasks.specs.Layout.{AreTasks};
ghost use Rattle.fire_tasks.specs.Steps.{HasMovedState};
ghost use Rattle.fire_open.specs.Homes.{AreClassCells};
ghost use Rattle.fire_open.specs.TaskCores.{task_core};
ghost use Rattle.fire_run.specs.Cells.{AreSingle, HaveAdded, HaveMoved};
ghost use Rattle.fire_run.specs.Moves.{CanSend, CanSendFrom};
ghost use Rattle.fire_run.specs.OneMove.{LastMoved, MayHaveMoved, TaskMoves, Sends, Takes};
ghost use Rattle.fire_run.specs.NetOf.{HasNet, IsNetOf, Stays, AreIdle, OneMore};

use crate::net::Net;
use class_locks::Cells;
use fire_open::settle_all;
use fire_tasks::{Task, fire_at};
use river_base::{Gate, Listed, NoMemory};
use river_plan::{Plan, RawPlan};
use std::alloc::Global;

// Takes the item at a port and fires on it; the rows of the firing go to the cells.
fn take_for<G: Gate>(
    alloc: Global,
    plan: &RawPlan,
    task: &mut Task,
    port: u32,
    cells: &mut Cells,
    gate: &G,
) -> Result<(), NoMemory>
    requires valid { IsPlan (plan_form plan.now) }
    requires task { IsTask (plan_form plan.now) (added (plan_form plan.now) (logs_of cells.old) task.old.op) task.old }
    requires cells { AreClassCells (plan_form plan.now) cells.old }
    requires idle { IsIdle task.old.pending }
    requires fine { task.old.bad ≡ None }
    requires port { port < length task.old.ins }
    requires known { (d : _) → 0 < length (known_of (slice_index_or task.old.ins port d)) }
    ensures task { OnOk result (IsTask (plan_form plan.now) (added (plan_form plan.now) (logs_of cells.new) task.old.op) task.new) }
    ensures same { OnOk result (ends_of task.new ≡ ends_of task.old) }
    ensures one { OnOk result (moves task.new ≡ moves task.old + 1) }
    ensures cells { OnOk result (HaveAdded (plan_form plan.now) task.old.op cells.old cells.new) }
    ensures takes { OnOk result (Takes (plan_form plan.now) task.old task.new cells.old cells.new) }
{
    fire_at(alloc, plan, task, port, gate)?;
    task.add_to_cells(alloc, cells)?;
    Ok(())
}

// A move of this task, if it has a pending or an untaken item: where an item is pending the first such goes, and otherwise the next is
// taken.
fn move_one<G: Gate>(
    alloc: Global,
    plan: &RawPlan,
    task: &mut Task,
    cells: &mut Cells,
    gate: &G,
) -> Result<bool, NoMemory>
    requires valid { IsPlan (plan_form plan.now) }
    requires task { IsTask (plan_form plan.now) (added (plan_form plan.now) (logs_of cells.old) task.old.op) task.old }
    requires cells { AreClassCells (plan_form plan.now) cells.old }
    requires fine { task.old.bad ≡ None }
    requires few { length task.old.ins < 2 ^ 32 }
    requires room { CanSend task.old }
    ensures task { OnOk result (IsTask (plan_form plan.now) (added (plan_form plan.now) (logs_of cells.new) task.old.op) task.new) }
    ensures same { OnOk result (ends_of task.new ≡ ends_of task.old) }
    ensures moved { IfOk result (OneMore (moves task.old) (moves task.new)) }
    ensures cells { OnOk result (HaveAdded (plan_form plan.now) task.old.op cells.old cells.new) }
    ensures still { IfOk result (λ moved. IsFalse moved → task_core task.new ≡ task_core task.old) }
    ensures stay { IfOk result (λ moved. IsFalse moved → cells.new ≡ cells.old) }
    ensures done { IfOk result (λ moved. IsFalse moved → IsDone task.old) }
    ensures step { IfOk result (λ moved. IsTrue moved → TaskMoves (plan_form plan.now) task.old task.new cells.old cells.new) }
{
    match task.first_pending() {
        Some(port) => {
            send_first(task, port)?;
            Ok(true)
        }
        None => take_next(alloc, plan, task, cells, gate),
    }
}

// Takes the next item of a task that has none pending, if there is one.
fn take_next<G: Gate>(
    alloc: Global,
    plan: &RawPlan,
    task: &mut Task,
    cells: &mut Cells,
    gate: &G,
) -> Result<bool, NoMemory>
    requires valid { IsPlan (plan_form plan.now) }
    requires task { IsTask (plan_form plan.now) (added (plan_form plan.now) (logs_of cells.old) task.old.op) task.old }
    requires cells { AreClassCells (plan_form plan.now) cells.old }
    requires fine { task.old.bad ≡ None }
    requires few { length task.old.ins < 2 ^ 32 }
    requires idle { IsIdle task.old.pending }
    ensures task { OnOk result (IsTask (plan_form plan.now) (added (plan_form plan.now) (logs_of cells.new) task.old.op) task.new) }
    ensures same { OnOk result (ends_of task.new ≡ ends_of task.old) }
    ensures moved { IfOk result (OneMore (moves task.old) (moves task.new)) }
    ensures cells { OnOk result (HaveAdded (plan_form plan.now) task.old.op cells.old cells.new) }
    ensures still { IfOk result (λ moved. IsFalse moved → task_core task.new ≡ task_core task.old) }
    ensures stay { IfOk result (λ moved. IsFalse moved → cells.new ≡ cells.old) }
    ensures done { IfOk result (λ moved. IsFalse moved → IsDone task.old) }
    ensures takes { IfOk result (λ moved. IsTrue moved → Takes (plan_form plan.now) task.old task.new cells.old cells.new) }
{
    match task.first_ready() {
        Some(port) => {
            take_for(alloc, plan, task, port as u32, cells, gate)?;
            Ok(true)
        }
        None => Ok(false),
    }
}

// Sends the front of what is pending at a port, which has room for it.
fn send_first(task: &mut Task, port: usize) -> Result<(), NoMemory>
    requires there { port < length task.old.pending }
    requires as_many { length task.old.pending ≡ length task.old.outs }
    requires some { list_at task.old.pending port ≡ [] → ⊥ }
    requires room { CanSend task.old }
    requires may { MaySendAll task.old.outs task.old.pending }
    ensures task { (p : _) (adds : ℕ → List (List ℤ)) → IsTask p adds task.old → OnOk result (IsTask p adds task.new) }
    ensures same { OnOk result (ends_of task.new ≡ ends_of task.old) }
    ensures one { OnOk result (moves task.new ≡ moves task.old + 1) }
    ensures sends { OnOk result (Sends task.old task.new) }
{
    task.send_at(port)?;
    Ok(())
}

// A move of the last task that has one.
fn move_last<G: Gate>(
    alloc: Global,
    plan: &RawPlan,
    tasks: &mut Listed<Task>,
    cells: &mut Cells,
    gate: &G,
) -> Result<bool, NoMemory>
    requires valid { IsPlan (plan_form plan.now) }
    requires tasks { AreTasks (plan_form plan.now) (added (plan_form plan.now) (logs_of cells.old)) tasks.old }
    requires single { AreSingle tasks.old }
    requires cells { AreClassCells (plan_form plan.now) cells.old }
    requires room { CanSendFrom tasks.old }
    ensures tasks { OnOk result (AreTasks (plan_form plan.now) (added (plan_form plan.now) (logs_of cells.new)) tasks.new) }
    ensures same { OnOk result (all_ends tasks.new ≡ all_ends tasks.old) }
    ensures moved { IfOk result (OneMore (all_moves tasks.old) (all_moves tasks.new)) }
    ensures cells { OnOk result (HaveMoved (plan_form plan.now) cells.old cells.new) }
    ensures still { IfOk result (λ moved. IsFalse moved → map task_core tasks.new ≡ map task_core tasks.old) }
    ensures stay { IfOk result (λ moved. IsFalse moved → cells.new ≡ cells.old) }
    ensures idle { IfOk result (λ moved. IsFalse moved → AreIdle tasks.old) }
    ensures step { IfOk result (λ moved. IsTrue moved → MayHaveMoved (plan_form plan.now) tasks.old tasks.new cells.old cells.new) }
{
    let count = tasks.len();
    for back in 0..count {
        if move_one(alloc, plan, tasks.at_mut(count - 1 - back), cells, gate)? {
            return Ok(true);
        }
    }
    Ok(false)
}

impl Net {
    /// One move: of the last operator that has a pending or an untaken item. False where none has; then nothing moved. Where there is no
    /// memory the net is refused: it may only be dropped.
    pub fn one<G: Gate>(&mut self, alloc: Global, plan: &Plan, gate: &G) -> Result<bool, NoMemory>
        requires { HasNet plan.now self.old }
        ensures stays { OnOk result (Stays plan.now self.old self.new) }
        ensures moved { IfOk result (OneMore (all_moves self.old.tasks) (all_moves self.new.tasks)) }
        ensures same { OnOk result (all_ends self.new.tasks ≡ all_ends self.old.tasks) }
        ensures goes { OnOk result (AllGoOn self.old.tasks self.new.tasks) }
        ensures logs { OnOk result (HaveMoved plan.now self.old.cells self.new.cells) }
        ensures still { IfOk result (λ moved. IsFalse moved → map task_core self.new.tasks ≡ map task_core self.old.tasks) }
        ensures stay { IfOk result (λ moved. IsFalse moved → self.new.cells ≡ self.old.cells) }
        ensures idle { IfOk result (λ moved. IsFalse moved → AreIdle self.new.tasks) }
        ensures step { IfOk result (λ moved. IsTrue moved → LastMoved plan.now self.old.tasks self.new.tasks self.old.cells self.new.cells) }
        ensures bounded { (inputs : _) (caps : _) → IsNetOf plan.now inputs caps self.old
            → IfOk result (λ moved. IsTrue moved → HasMovedState plan.now inputs caps self.old.tasks self.new.tasks) }
        ensures busy { IfOk result (λ moved. IsTrue moved → AreIdle self.old.tasks → ⊥) }
        ensures refused { OnErr result (self.new.refused ≡ true) }
    {
        self.refused = true;
        let moved = move_last(alloc, plan.raw(), &mut self.tasks, &mut self.cells, gate)?;
        settle_all(&mut self.tasks, &self.links);
        self.refused = false;
        Ok(moved)
    }
}
