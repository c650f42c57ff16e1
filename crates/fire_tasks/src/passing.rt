// Turns of a task.
ghost use Rattle.std.specs.Prelude.{◌≡◌, ◌<◌, ◌^◌, None, [], length, slice_index_or, IsTrue, IsFalse, ◌↔◌, IfOk};
ghost use Rattle.river_plan.specs.Forms.{plan_form};
ghost use Rattle.river_plan.specs.Valid.{IsPlan};
ghost use Rattle.fire_tasks.specs.Ports.{IsIdle, MaySendAll, RefusedAll, Sent, SentAt, known_of};
ghost use Rattle.fire_tasks.specs.Tasks.{IsTaskAt};
ghost use Rattle.fire_tasks.specs.Turns.{IsSeatOf, HasTurned, HasTried, StillSits};

use crate::ports::{flush_all, send_at};
use crate::taking::{first_ready, take_at};
use crate::{Outlet, Task};
use brooklet_step::Lines;
use class_locks::{Room, Seat, put_all, take_all};
use river_base::{Gate, Listed, NoMemory};
use river_plan::RawPlan;
use std::alloc::Global;

/// How many items a task takes, at most, before the next one has its turn.
const TURN: u32 = 64;

// Sends what is pending at each port, as far as there is room; says whether an item was sent.
#[tactic(auto, using(crate::proofs::PassLemmas::to_first, crate::proofs::PassLemmas::to_all))]
fn send_all(outs: &mut Listed<Outlet>, pending: &mut Lines) -> Result<bool, NoMemory>
    requires many { length pending.old ≡ length outs.old }
    requires may { MaySendAll outs.old pending.old }
    ensures sent { IfOk result (Sent outs.old pending.old outs.new pending.new) }
    ensures stuck { IfOk result (λ moved. IsFalse moved → RefusedAll outs.new pending.new) }
{
    let mut moved = false;
    for port in 0..pending.len() {
        if send_port(outs, pending, port)? {
            moved = true;
        }
    }
    Ok(moved)
}

// Sends what is pending at a port, as far as there is room.
fn send_port(outs: &mut Listed<Outlet>, pending: &mut Lines, port: usize) -> Result<bool, NoMemory>
    requires outs { port < length outs.old }
    requires pending { port < length pending.old }
    requires may { MaySendAll outs.old pending.old }
    ensures { IfOk result (SentAt port outs.old pending.old outs.new pending.new) }
{
    if !send_at(outs, pending, port)? {
        return Ok(false);
    }
    for _more in 0..u64::MAX {
        if !send_at(outs, pending, port)? {
            return Ok(true);
        }
    }
    Ok(true)
}

/// Whether nothing is pending.
#[tactic(auto, using(crate::proofs::PortLemmas::idle_all))]
pub(crate) fn is_idle(pending: &Lines) -> bool
    ensures { IsTrue result ↔ IsIdle pending.now }
{
    pending.as_slice().iter().all(|line| line.is_empty())
}

// Takes the item at a port under the locks of the task's classes, all of them or none. It says whether they were there.
fn take_locked<G: Gate>(
    alloc: Global,
    plan: &RawPlan,
    task: &mut Task,
    port: u32,
    seat: &mut Seat,
    room: &mut Room,
    gate: &G,
) -> Result<bool, NoMemory>
    requires valid { IsPlan (plan_form plan.now) }
    requires task { IsTaskAt (plan_form plan.now) seat.old.view task.old }
    requires seat { IsSeatOf (plan_form plan.now) task.old.op seat.old.view }
    requires idle { IsIdle task.old.pending }
    requires fine { task.old.bad ≡ None }
    requires port { port < length task.old.ins }
    requires known { (d : _) → 0 < length (known_of (slice_index_or task.old.ins port d)) }
    ensures lot { seat.new.lot ≡ seat.old.lot }
    ensures sits { StillSits seat.old.view seat.new.view }
    ensures tried { IfOk result (HasTried (plan_form plan.now) seat.old.view seat.new.view task.old task.new) }
{
    room.reserve(task.classes.len())?;
    let Ok(mut pile) = take_all(seat, task.classes.as_slice(), room) else {
        return Ok(false);
    };
    let taken = take_at(alloc, plan, task, port, &mut pile, gate);
    put_all(seat, pile, room);
    taken?;
    Ok(true)
}

// Sends what is pending; where nothing is left takes an item. Says whether anything moved.
fn take_turn<G: Gate>(
    alloc: Global,
    plan: &RawPlan,
    task: &mut Task,
    seat: &mut Seat,
    room: &mut Room,
    gate: &G,
) -> Result<bool, NoMemory>
    requires valid { IsPlan (plan_form plan.now) }
    requires task { IsTaskAt (plan_form plan.now) seat.old.view task.old }
    requires seat { IsSeatOf (plan_form plan.now) task.old.op seat.old.view }
    requires fine { task.old.bad ≡ None }
    requires few { length task.old.ins < 2 ^ 32 }
    ensures lot { seat.new.lot ≡ seat.old.lot }
    ensures sits { StillSits seat.old.view seat.new.view }
    ensures turned { IfOk result (HasTurned (plan_form plan.now) seat.old.view seat.new.view task.old task.new) }
{
    let sent = send_all(&mut task.outs, &mut task.pending)?;
    if !is_idle(&task.pending) {
        return Ok(sent);
    }
    match first_ready(&mut task.ins) {
        Some(port) => {
            if take_locked(alloc, plan, task, port as u32, seat, room, gate)? {
                return Ok(true);
            }
            Ok(sent)
        }
        None => Ok(sent),
    }
}

// Turns of a task, at most 64, for as long as something moves.
fn take_turns<G: Gate>(
    alloc: Global,
    plan: &RawPlan,
    task: &mut Task,
    seat: &mut Seat,
    room: &mut Room,
    gate: &G,
) -> Result<bool, NoMemory>
    requires valid { IsPlan (plan_form plan.now) }
    requires task { IsTaskAt (plan_form plan.now) seat.old.view task.old }
    requires seat { IsSeatOf (plan_form plan.now) task.old.op seat.old.view }
    requires few { length task.old.ins < 2 ^ 32 }
    ensures lot { seat.new.lot ≡ seat.old.lot }
    ensures sits { StillSits seat.old.view seat.new.view }
    ensures turned { IfOk result (HasTurned (plan_form plan.now) seat.old.view seat.new.view task.old task.new) }
{
    if task.bad.is_some() {
        return Ok(false);
    }
    if !take_turn(alloc, plan, task, seat, room, gate)? {
        return Ok(false);
    }
    for _turn in 1..TURN {
        if task.bad.is_some() {
            return Ok(true);
        }
        if !take_turn(alloc, plan, task, seat, room, gate)? {
            return Ok(true);
        }
    }
    Ok(true)
}

/// A pass over a task: it sends, and takes items, each where all before it is sent and its classes are free; says whether anything
/// moved. Rows that wait in its ends for others go at the end of it.
pub(crate) fn pass_task<G: Gate>(
    alloc: Global,
    plan: &RawPlan,
    task: &mut Task,
    seat: &mut Seat,
    room: &mut Room,
    gate: &G,
) -> Result<bool, NoMemory>
    requires valid { IsPlan (plan_form plan.now) }
    requires task { IsTaskAt (plan_form plan.now) seat.old.view task.old }
    requires seat { IsSeatOf (plan_form plan.now) task.old.op seat.old.view }
    requires few { length task.old.ins < 2 ^ 32 }
    ensures lot { seat.new.lot ≡ seat.old.lot }
    ensures sits { StillSits seat.old.view seat.new.view }
    ensures turned { IfOk result (HasTurned (plan_form plan.now) seat.old.view seat.new.view task.old task.new) }
{
    let moved = take_turns(alloc, plan, task, seat, room, gate)?;
    flush_all(&mut task.outs, &task.pending);
    Ok(moved)
}
