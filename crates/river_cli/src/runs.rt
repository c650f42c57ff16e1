// Runs of plans that were gathered, and what they print.
ghost use Rattle.std.specs.Prelude.{◌≡◌, IfOk};
ghost use Rattle.river_road.specs.Supplied.{Supplied, IsGathered, IsReady, printed_for};

use command_line::{Capacity, Workers};
use csv_streams::print_outcome;
use fire_run::run_plan;
use live_run::run_live;
use river_base::{Bytes, Gate, NoMemory};
use river_road::Gathered;
use std::alloc::Global;
use std::sync::Wait;
use std::thread::Threads;

/// What is printed of a run by so many workers, on threads that `rt` starts, which enter the gate at each firing. A queue between two
/// operators that has no capacity of its own holds at most `cap` items.
pub(crate) fn run_by_workers<R: Threads + Sync, G: Gate + Sync>(
    rt: &R,
    alloc: Global,
    gathered: Gathered,
    workers: Workers,
    cap: Capacity,
    counted: bool,
    gate: &G,
) -> Result<Bytes, NoMemory>
    requires ready { IsReady gathered }
    ensures { IfOk result (λ text. (s : Supplied) → IsGathered s gathered → text ≡ printed_for counted s) }
{
    let Gathered { plan, caps, inputs } = gathered;
    let ran = run_plan(
        rt,
        alloc,
        &plan,
        inputs,
        workers.get(),
        cap.get(),
        &caps,
        gate,
    )?;
    print_outcome(alloc, &plan, ran.outcome(), counted)
}

/// The same of a run by tasks that wait, one for each operator, on a thread each.
pub(crate) fn run_by_tasks<R: Threads + Wait + Sync, G: Gate + Sync>(
    rt: &R,
    alloc: Global,
    gathered: Gathered,
    cap: Capacity,
    counted: bool,
    gate: &G,
) -> Result<Bytes, NoMemory>
    requires ready { IsReady gathered }
    ensures { IfOk result (λ text. (s : Supplied) → IsGathered s gathered → text ≡ printed_for counted s) }
{
    let Gathered { plan, caps, inputs } = gathered;
    let ran = run_live(rt, alloc, &plan, inputs, cap.get(), &caps, gate)?;
    print_outcome(alloc, &plan, ran.outcome(), counted)
}
