// A net is split.
ghost use Rattle.std.specs.Prelude.{◌≡◌, ◌<◌, ◌≤◌, [], length, IfOk, IfErr, OnOk};
ghost use mathlib.Core.List.{reverse};
ghost use Rattle.river_plan.specs.Forms.{PlanForm};
ghost use Rattle.river_plan.specs.Valid.{IsPlan};
ghost use Rattle.fire_tasks.specs.Tasks.{all_moves};
ghost use Rattle.fire_run.specs.Frames.{AreBundlesOf, AreDealt, GivesBack, bundle_moves, tasks_of_part};
ghost use Rattle.fire_run.specs.NetOf.{HasNet};
ghost use Rattle.fire_run.specs.Shares.{AreShares, IsShare, OthersStay};

use crate::frame::{Bundles, Frame};
use crate::net::Net;
use class_locks::{BeginFault, Late, Seat, Seats, begin};
use fire_tasks::{Bundle, Task};
use river_base::{Listed, NoMemory};
use std::alloc::Global;
use std::mem::replace;
use std::snapshot::Snapshot;

/// How often a pass of a bundle looks at its tasks, at most, where there are other workers.
const LOOKS: u32 = 4096;

/// Why a net was not split.
#[derive(Drop)]
pub enum SplitFault {
    /// The round had begun: the net as it was, and the seat without parts that was found.
    Begun(Net, Late),
    /// There was no memory; the net is dropped.
    NoMemory,
}

impl From<NoMemory> for SplitFault {
    ghost use Rattle.fire_run.specs.declared.splitting.SplitFault.TheVariants as fault;

    ghost from_gives = { λ _ f. f ≡ fault.NoMemory };

    fn from(_: NoMemory) -> Self {
        SplitFault::NoMemory
    }
}

// Takes out the tasks of a part, in ascending order; an empty task stays at the place of each.
fn take_part(
    alloc: Global,
    tasks: &mut Listed<Task>,
    part: u32,
    workers: u32,
) -> Result<Listed<Task>, NoMemory>
    requires { 0 < workers }
    ensures taken { IfOk result (λ own. own ≡ tasks_of_part workers part tasks.old) }
    ensures left { OnOk result (OthersStay workers part tasks.old tasks.new) }
{
    let mut own = Listed::new(alloc);
    for place in 0..tasks.len() {
        let op = tasks.at(place).op();
        if op % workers == part {
            own.push(replace(tasks.at_mut(place), Task::empty(alloc, op)))?;
        }
    }
    Ok(own)
}

// The bundle of a part, at its seat.
fn share_of(
    alloc: Global,
    tasks: &mut Listed<Task>,
    seat: Seat,
    part: u32,
    workers: u32,
) -> Result<Bundle, NoMemory>
    requires { 0 < workers }
    ensures share { IfOk result (IsShare workers tasks.old part seat) }
    ensures left { OnOk result (OthersStay workers part tasks.old tasks.new) }
{
    let own = take_part(alloc, tasks, part, workers)?;
    let looks = if workers == 1 { 1 } else { LOOKS };
    Bundle::new(alloc, own, seat, looks)
}

// A bundle for each seat, the last first.
fn deal(
    alloc: Global,
    tasks: &mut Listed<Task>,
    seats: &mut Seats,
    bundles: &mut Bundles,
    workers: u32,
) -> Result<(), NoMemory>
    requires some { 0 < workers }
    requires seats { length seats.old.items ≡ workers }
    requires none { bundles.old.items ≡ [] }
    ensures many { OnOk result (length bundles.new.items ≡ workers) }
    ensures shares { OnOk result (AreShares workers tasks.old seats.old.items 0 (reverse bundles.new.items)) }
    ensures places { OnOk result (length tasks.new ≡ length tasks.old) }
{
    while let Some(seat) = seats.pop() {
        let part = seats.len() as u32;
        let share = share_of(alloc, tasks, seat, part, workers)?;
        bundles.push(share)?;
    }
    Ok(())
}

// A bundle for each seat, in order.
fn bundles_of(
    alloc: Global,
    tasks: &mut Listed<Task>,
    mut seats: Seats,
    workers: u32,
) -> Result<Bundles, NoMemory>
    requires some { 0 < workers }
    requires seats { length seats.items ≡ workers }
    ensures many { IfOk result (λ bundles. length bundles.items ≡ workers) }
    ensures shares { IfOk result (λ bundles. AreShares workers tasks.old seats.items 0 bundles.items) }
    ensures places { OnOk result (length tasks.new ≡ length tasks.old) }
{
    let mut bundles = Vec::new(alloc);
    deal(alloc, tasks, &mut seats, &mut bundles, workers)?;
    bundles.as_mut_slice().reverse();
    Ok(bundles)
}

impl Net {
    /// Splits a net for so many workers, 1 to 256: into the frame, and a bundle for each worker. Bundle number k has the tasks of the
    /// operators whose number modulo `workers` is k, in ascending order, and the seat of part k, which has put nothing. Where the round
    /// had begun the net comes back as it was, and where there is no memory it is dropped.
    pub fn split(self, alloc: Global, workers: u32) -> Result<(Frame, Bundles), SplitFault>
        requires net { (p : PlanForm) × IsPlan p × HasNet p self }
        requires workers { (1 ≤ workers) × (workers ≤ 256) }
        ensures frame { IfOk result (λ r. r.0 ≡ record { net = self; workers = workers }) }
        ensures bundles { (p : PlanForm) → IsPlan p → HasNet p self → IfOk result (λ r. AreBundlesOf p r.0 r.1.items) }
        ensures dealt { IfOk result (λ r. AreDealt self workers r.1.items) }
        ensures moves { IfOk result (λ r. bundle_moves r.1.items ≡ all_moves self.tasks) }
        ensures begun { IfErr result (GivesBack self) }
    {
        let mut net = self;
        let whole = Snapshot::of(&net);
        let seats = match begin(alloc, &mut net.cells, workers) {
            Ok(seats) => seats,
            Err(BeginFault::Begun(late)) => return Err(SplitFault::Begun(net, late)),
            Err(BeginFault::NoMemory) => return Err(SplitFault::NoMemory),
        };
        let bundles = bundles_of(alloc, &mut net.tasks, seats, workers)?;
        let Net {
            tasks,
            links,
            cells,
            refused: _,
        } = net;
        let frame = Frame {
            tasks,
            links,
            cells,
            workers,
            net: whole,
        };
        Ok((frame, bundles))
    }
}
