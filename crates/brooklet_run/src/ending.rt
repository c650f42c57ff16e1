// What a machine gave.
ghost use Rattle.std.specs.Prelude.{◌≡◌, pos, map, take, length, IfOk, ◌<◌, ◌≤◌, ◌^◌, All};
ghost use Rattle.river_plan.specs.Forms.{decl_names};
ghost use Rattle.brooklet_step.specs.Works.{IsRunning, AreCounts, queue_of};

use brooklet_step::{Lines, MachineState, Outcome, Sizes, Tables};
use kern_rows::ItemLine;
use river_base::{NoMemory, Numbers};
use std::alloc::Global;
use std::mem::replace;

/// The histories of the outputs, whose items move, the tables, which move too, and the counts.
pub(crate) fn outcome_of(alloc: Global, parts: &mut MachineState) -> Result<Outcome, NoMemory>
    requires { IsRunning parts.old }
    ensures outs { IfOk result (λ outcome. outcome.outs ≡ map (queue_of parts.old) (decl_names parts.old.plan.outputs)) }
    ensures tables { IfOk result (λ outcome. outcome.tables ≡ parts.old.tables) }
    ensures counts { IfOk result (λ outcome. AreCounts parts.old outcome.counts) }
{
    let counts = as_values(alloc, &parts.counts)?;
    let outputs = parts.plan.raw().outputs.len();
    let outs = first_lists(alloc, &mut parts.queues, outputs)?;
    let tables = replace(&mut parts.tables, Tables::new(alloc));
    Ok(Outcome {
        outs,
        tables,
        counts,
    })
}

// The items of the first queues, which move.
fn first_lists(alloc: Global, queues: &mut Lines, count: usize) -> Result<Lines, NoMemory>
    requires { count ≤ length queues.old }
    ensures { IfOk result (λ lists. lists ≡ take count queues.old) }
{
    let mut lists = Lines::new(alloc);
    for place in 0..count {
        lists.push(take_line(alloc, queues.at_mut(place)))?;
    }
    Ok(lists)
}

// The items of a line; none is left there.
fn take_line(alloc: Global, line: &mut ItemLine) -> ItemLine
    ensures { result ≡ line.old }
{
    replace(line, ItemLine::new(alloc))
}

// Counts as values.
#[tactic(auto, using(work_code::proofs::Lists::copies))]
fn as_values(alloc: Global, counts: &Sizes) -> Result<Numbers, NoMemory>
    requires { All (λ count. count < 2 ^ 63) counts.now }
    ensures { IfOk result (λ values. values ≡ map pos counts.now) }
{
    let mut values = Numbers::new(alloc);
    for count in counts.as_slice() {
        values.push(*count as i64)?;
    }
    Ok(values)
}
