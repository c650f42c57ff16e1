// Two workers on two threads, which add to the tables of the same two classes.
ghost use Rattle.std.specs.Prelude.{◌≡◌, ◌<◌, ◌+◌, ◌^◌, ℕ, length, slice_index_or, All, IfSome};
ghost use Rattle.class_locks.specs.declared.view.View.{View};
ghost use Rattle.lock_uses.specs.Uses.{IsReadyToAdd, HasWorked};
ghost use Rattle.lock_uses.specs.Crews.{HasTakenTurn};
ghost use Rattle.lock_uses.specs.declared.crew.Worker.{Worker};

use crate::try_once;
use class_locks::Seat;
use std::alloc::Global;
use std::thread;
use std::thread::Threads;

/// A worker: its seat, the number of its operator, how often it is to add, and how often it did.
#[derive(Drop)]
pub struct Worker {
    pub alloc: Global,
    pub seat: Seat,
    pub op: u32,
    pub wanted: u32,
    pub added: u32,
    /// Whether memory was wanting.
    pub refused: bool,
}

/// Adds a row to each table as often as is wanted, where the classes are free, in so many tries.
pub fn work(alloc: Global, seat: &mut Seat, op: u32, wanted: u32, tries: u32) -> Option<u32>
    requires { IsReadyToAdd op seat.old.view }
    ensures lot { seat.new.lot ≡ seat.old.lot }
    ensures worked { IfSome result (λ added. HasWorked op added seat.old.view seat.new.view) }
{
    let mut added = 0;
    for _try in 0..tries {
        if added >= wanted {
            return Some(added);
        }
        added = once_more(alloc, seat, op, added)?;
    }
    Some(added)
}

// One try more, where so many were successful.
#[tactic(auto, using(crate::proofs::Workers::worked_more, crate::proofs::Workers::worked_on))]
fn once_more(alloc: Global, seat: &mut Seat, op: u32, added: u32) -> Option<u32>
    requires ready { IsReadyToAdd op seat.old.view }
    requires few { added + 1 < 2 ^ 32 }
    ensures lot { seat.new.lot ≡ seat.old.lot }
    ensures worked { (before : View) → HasWorked op added before seat.old.view → IfSome result (λ now. HasWorked op now before seat.new.view) }
{
    match try_once(alloc, seat, op) {
        Ok(true) => Some(added + 1),
        Ok(false) => Some(added),
        Err(_) => None,
    }
}

// What a worker does in a round.
fn turn(worker: &mut Worker)
    requires { IsReadyToAdd worker.old.op worker.old.seat.view }
    ensures { HasTakenTurn worker.old worker.new }
{
    let tries = 1_000_000_000;
    match work(
        worker.alloc,
        &mut worker.seat,
        worker.op,
        worker.wanted,
        tries,
    ) {
        Some(added) => worker.added = added,
        None => worker.refused = true,
    }
}

/// Both workers work, each on a thread of its own.
pub fn work_both<R: Threads + Sync>(rt: &R, workers: &mut [Worker])
    requires { All (λ w. IsReadyToAdd w.op w.seat.view) workers.old }
    ensures len { length workers.new ≡ length workers.old }
    ensures each { (i : ℕ) (d : Worker) → i < length workers.old → HasTakenTurn (slice_index_or workers.old i d) (slice_index_or workers.new i d) }
{
    thread::for_each_mut(
        rt,
        workers,
        2,
        &|_, worker: &mut Worker|
            requires { IsReadyToAdd worker.old.op worker.old.seat.view }
            ensures { HasTakenTurn worker.old worker.new }
        { turn(worker) },
    );
}
