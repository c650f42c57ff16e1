// Runs of a plan by workers.
ghost use Rattle.std.specs.Prelude.{◌≡◌, ◌+◌, ◌%◌, ◌<◌, ◌≤◌, ◌↔◌, ℕ, All, false, length, IfOk, IsTrue, IsFalse};
ghost use Rattle.river_plan.specs.Caps.{IsCap, AreCaps, capacity, first_cap};
ghost use Rattle.river_plan.specs.Valid.{IsPlan};
ghost use Rattle.brooklet_model.specs.Fit.{Fit};
ghost use Rattle.fire_tasks.specs.Bundles.{IsReady};
ghost use Rattle.fire_tasks.specs.Tasks.{all_moves};
ghost use Rattle.fire_run.specs.Closed.{HasClosed, IsRanOf};
ghost use Rattle.fire_run.specs.Frames.{AreBundlesOf, AreCalm, AreDealt, HaveWorked};
ghost use Rattle.fire_run.specs.NetOf.{HasNet, Stays};
ghost use Rattle.fire_run.specs.Rounds.{NetGoesOn, HasJoined, OnceMoved, SomeMoved, UnlessLate};

use crate::pace::{Pace, threads_of};
use crate::{Bundles, Frame, Net, Ran, SplitFault};
use brooklet_step::Lines;
use fire_tasks::round_of;
use river_base::{Gate, NoMemory};
use river_plan::{Caps, Plan, RawPlan};
use std::alloc::Global;
use std::sync::atomic::AtomicU64;
use std::sync::atomic::Ordering::SeqCst;
use std::thread::Threads;

/// How a round came out.
#[derive(Clone, Copy)]
pub(crate) enum Round {
    /// Something moved.
    Moved,
    /// Nothing moved, and nothing is left to move.
    Still,
    /// There was none, since the locks could not be opened.
    Late,
}

/// Runs a plan on these inputs to the end in a net, by so many workers, 1 to 64, or by fewer where they
/// are in each other's way; a queue between two operators holds at most as many items as the first entry
/// with its name says, and `cap` items where there is none, 1 to 65,536. The answer is what the plan
/// means, with the logs of the lock classes and the number of rounds, 2^64 - 1 standing for all that are
/// greater. There is no error but that there is no memory. With one worker no thread is started.
pub fn run_plan<R: Threads + Sync, G: Gate + Sync>(
    rt: &R,
    alloc: Global,
    plan: &Plan,
    inputs: Lines,
    workers: u32,
    cap: u32,
    caps: &Caps,
    gate: &G,
) -> Result<Ran, NoMemory>
    requires fits { Fit plan.now inputs }
    requires workers { (1 ≤ workers) × (workers ≤ 64) }
    requires cap { IsCap cap }
    requires caps { AreCaps caps.now }
    ensures ran { IfOk result (IsRanOf plan.now inputs) }
    ensures closed { IfOk result (HasClosed plan.now inputs (capacity cap (first_cap caps.now))) }
{
    let net = Net::open(alloc, plan, inputs, cap, caps)?;
    let workers = busy_workers(plan, workers);
    let (mut net, rounds) = make_rounds(rt, alloc, plan, net, workers, gate)?;
    loop {
        if !net.one(alloc, plan, gate)? {
            return net.close(alloc, plan, rounds);
        }
    }
}

// How many of the workers have an operator, and at least one: operator number i works for the same worker among them.
fn busy_workers(plan: &Plan, workers: u32) -> u32
    requires { 1 ≤ workers }
    ensures some { 1 ≤ result }
    ensures most { result ≤ workers }
    ensures same { (i : ℕ) → i < length plan.now.ops → i % result ≡ i % workers }
{
    let ops = plan.raw().ops.len();
    if (workers as usize) <= ops {
        return workers;
    }
    if ops == 0 {
        return 1;
    }
    ops as u32
}

// Rounds, to the first in which nothing is left to move or which there is not; and how many there
// were. The pace says by how many workers.
fn make_rounds<R: Threads + Sync, G: Gate + Sync>(
    rt: &R,
    alloc: Global,
    plan: &Plan,
    net: Net,
    workers: u32,
    gate: &G,
) -> Result<(Net, u64), NoMemory>
    requires valid { IsPlan plan.now }
    requires net { HasNet plan.now net }
    requires workers { (1 ≤ workers) × (workers ≤ 64) }
    ensures stays { IfOk result (λ both. Stays plan.now net both.0) }
    ensures rounds { IfOk result (λ both. both.1 ≤ 1 + all_moves both.0.tasks) }
{
    let mut net = net;
    let mut pace = Pace::new(workers);
    for round in 0..u64::MAX {
        let parts = pace.parts(workers);
        let busy = AtomicU64::new(pace.count(parts));
        let (next, went) = make_round(rt, alloc, plan, net, parts, gate, &busy)?;
        net = next;
        pace = pace.after(workers, busy.into_inner());
        match went {
            Round::Moved => {}
            Round::Still => return Ok((net, round + 1)),
            Round::Late => return Ok((net, round)),
        }
    }
    Ok((net, u64::MAX))
}

// A round of the workers, and a move where nothing moved in it.
fn make_round<R: Threads + Sync, G: Gate + Sync>(
    rt: &R,
    alloc: Global,
    plan: &Plan,
    net: Net,
    workers: u32,
    gate: &G,
    busy: &AtomicU64,
) -> Result<(Net, Round), NoMemory>
    requires valid { IsPlan plan.now }
    requires net { HasNet plan.now net }
    requires workers { (1 ≤ workers) × (workers ≤ 64) }
    ensures goes { IfOk result (λ both. NetGoesOn plan.now net both.0 both.1) }
    ensures round { IfOk result (λ both. UnlessLate plan.now workers net both.0 both.1) }
{
    match net.split(alloc, workers) {
        Ok((frame, bundles)) => {
            let (net, moved) = work_all(rt, plan, frame, bundles, workers, gate, busy)?;
            if moved {
                return Ok((net, Round::Moved));
            }
            move_once(alloc, plan, net, gate)
        }
        Err(SplitFault::Begun(net, _)) => Ok((net, Round::Late)),
        Err(SplitFault::NoMemory) => Err(NoMemory),
    }
}

// One move, if there is one.
fn move_once<G: Gate>(
    alloc: Global,
    plan: &Plan,
    net: Net,
    gate: &G,
) -> Result<(Net, Round), NoMemory>
    requires { HasNet plan.now net }
    ensures goes { IfOk result (λ both. NetGoesOn plan.now net both.0 both.1) }
    ensures once { IfOk result (λ both. OnceMoved plan.now net both.0) }
{
    let mut net = net;
    if net.one(alloc, plan, gate)? {
        Ok((net, Round::Moved))
    } else {
        Ok((net, Round::Still))
    }
}

// The bundles of a net work, and become a net again; says whether anything moved.
fn work_all<R: Threads + Sync, G: Gate + Sync>(
    rt: &R,
    plan: &Plan,
    frame: Frame,
    bundles: Bundles,
    workers: u32,
    gate: &G,
    busy: &AtomicU64,
) -> Result<(Net, bool), NoMemory>
    requires bundles { AreBundlesOf plan.now frame bundles.items }
    requires dealt { AreDealt frame.net frame.workers bundles.items }
    requires workers { 0 < workers }
    ensures { IfOk result (λ both. HasJoined plan.now frame bundles.items both.0 both.1) }
{
    let mut bundles = bundles;
    work_each(rt, plan.raw(), &mut bundles, workers, gate, busy);
    if is_refused(&bundles) {
        frame.scrap(bundles);
        return Err(NoMemory);
    }
    let moved = has_moved(&bundles);
    Ok((frame.join(bundles), moved))
}

// Each of the bundles works, all of them at a time or one after another, as the count says.
fn work_each<R: Threads + Sync, G: Gate + Sync>(
    rt: &R,
    raw: &RawPlan,
    bundles: &mut Bundles,
    workers: u32,
    gate: &G,
    busy: &AtomicU64,
)
    requires ready { All (IsReady raw.now) bundles.old.items }
    requires workers { 0 < workers }
    ensures { HaveWorked raw.now bundles.old.items bundles.new.items }
{
    let threads = threads_of(busy.load(SeqCst), workers);
    round_of(
        rt,
        raw,
        bundles.as_mut_slice(),
        threads as usize,
        gate,
        busy,
    );
}

// Whether one of the bundles was refused.
fn is_refused(bundles: &Bundles) -> bool
    ensures { IsFalse result ↔ AreCalm bundles.now.items }
{
    bundles.iter().any(|bundle| bundle.is_refused())
}

// Whether anything moved in one of the bundles.
fn has_moved(bundles: &Bundles) -> bool
    ensures some { IsTrue result → SomeMoved bundles.now.items }
    ensures none { IsFalse result → All (λ b. b.moved ≡ false) bundles.now.items }
{
    bundles.iter().any(|bundle| bundle.has_moved())
}
