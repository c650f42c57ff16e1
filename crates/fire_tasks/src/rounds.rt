// What a worker does in a round, and rounds of several workers.
ghost use Rattle.std.specs.Prelude.{◌≡◌, ◌<◌, ℕ, length, slice_index_or, All};
ghost use Rattle.fire_tasks.specs.Bundles.{IsReady, HasMadeRound};

use crate::Bundle;
use crate::bundle::{BEGUN, make_passes};
use river_base::Gate;
use river_plan::RawPlan;
use std::sync::atomic::AtomicU64;
use std::sync::atomic::Ordering::SeqCst;
use std::thread;
use std::thread::Threads;

// A round of a bundle: passes, until one moves nothing. Behind it the bundle counts no more as one that has not ended it.
fn work<G: Gate>(plan: &RawPlan, bundle: &mut Bundle, gate: &G, busy: &AtomicU64)
    requires { IsReady plan.now bundle.old }
    ensures { HasMadeRound plan.now bundle.old bundle.new }
{
    busy.fetch_sub(BEGUN, SeqCst);
    make_passes(plan, bundle, gate, busy);
    busy.fetch_sub(1, SeqCst);
}

// What can work by a plan, or by what else it is told. A round is generic in both, so that neither the type of a plan nor that of
// bundles is there where it is shown that the workers' call may be shared, nor are both where one of them is shown to be fit for
// threads.
trait Works<P> {
    ghost ready: { P → Self → Type 0 };

    ghost worked: { P → Self → Self → Type 0 };

    // Works until nothing moves.
    fn work<G: Gate>(&mut self, plan: &P, gate: &G, busy: &AtomicU64)
        requires { Self.ready plan.now self.old }
        ensures { Self.worked plan.now self.old self.new };
}

impl Works<RawPlan> for Bundle {
    ghost use Rattle.fire_tasks.specs.Bundles.{IsReady, HasMadeRound};

    ghost ready = { IsReady };

    ghost worked = { HasMadeRound };

    fn work<G: Gate>(&mut self, plan: &RawPlan, gate: &G, busy: &AtomicU64) {
        work(plan, self, gate, busy)
    }
}

// Each works, so many of them at a time. Where the number is 1 no thread is started.
fn round<R: Threads + Sync, P: Sync, C: Works<P> + Send, G: Gate + Sync>(
    rt: &R,
    plan: &P,
    bundles: &mut [C],
    workers: usize,
    gate: &G,
    busy: &AtomicU64,
)
    requires workers { 0 < workers }
    requires bundles { All (C.ready plan.now) bundles.old }
    ensures many { length bundles.new ≡ length bundles.old }
    ensures each { (i : ℕ) (d : _) → i < length bundles.old → C.worked plan.now (slice_index_or bundles.old i d) (slice_index_or bundles.new i d) }
{
    thread::for_each_mut(
        rt,
        bundles,
        workers,
        &|_, c: &mut C|
            requires { C.ready plan.now c.now }
            ensures { C.worked plan.entry.now c.entry.now c.exit.now }
        { c.work(plan, gate, busy) },
    );
}

// Each works by the lists of a plan: here it is shown that these may be shared.
fn round_by<R: Threads + Sync, C: Works<RawPlan> + Send, G: Gate + Sync>(
    rt: &R,
    plan: &RawPlan,
    bundles: &mut [C],
    workers: usize,
    gate: &G,
    busy: &AtomicU64,
)
    requires workers { 0 < workers }
    requires bundles { All (C.ready plan.now) bundles.old }
    ensures many { length bundles.new ≡ length bundles.old }
    ensures each { (i : ℕ) (d : _) → i < length bundles.old → C.worked plan.now (slice_index_or bundles.old i d) (slice_index_or bundles.new i d) }
{
    round(rt, plan, bundles, workers, gate, busy);
}

/// Each bundle works by the lists of its plan: here it is shown that bundles may be sent to other threads.
pub fn round_of<R: Threads + Sync, G: Gate + Sync>(
    rt: &R,
    plan: &RawPlan,
    bundles: &mut [Bundle],
    workers: usize,
    gate: &G,
    busy: &AtomicU64,
)
    requires workers { 0 < workers }
    requires bundles { All (IsReady plan.now) bundles.old }
    ensures many { length bundles.new ≡ length bundles.old }
    ensures each { (i : ℕ) (d : _) → i < length bundles.old → HasMadeRound plan.now (slice_index_or bundles.old i d) (slice_index_or bundles.new i d) }
{
    round_by(rt, plan, bundles, workers, gate, busy);
}
