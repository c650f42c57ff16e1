//! The rates of the queues of a plan, operator by operator.
ghost use Rattle.std.specs.Prelude.{◌≡◌, ℕ, OnOk, Ok, IfOk, IfErr, IfSome, MatchOption};
ghost use Rattle.kern_rows.specs.Forms.{filter_form};
ghost use Rattle.kern_rows.specs.Turns.{shares};
ghost use Rattle.brooklet_model.specs.ByIndex as index;
ghost use Rattle.stream_periods.specs.Periods as periods;
ghost use Rattle.stream_periods.specs.Walk as walk;
ghost use Rattle.rate_code.specs.Cause.{IsRoom, SaysCause, SaysCauseOf, StopsAt, the_known};
ghost use Rattle.rate_code.specs.Entries.{known_of, queues_of};
ghost use Rattle.rate_code.specs.Rate.{period_of};
ghost use Rattle.river_kernels.specs.Kern.{filter, duplicate, deal, collect};
ghost use Rattle.river_plan.specs.Forms.{op_form, op_forms};
ghost use Rattle.rate_code.specs.Walked.{walked_filter, share_of, reads_one, writes_one, walks, stops, walks_op, is_known, is_unknown, is_known_from, is_unknown_from, stops_from};

use crate::cause::NoRate;
use crate::filters::{filter_fades, filter_rate};
use crate::queues::{Entry, Spot, found, known, turns, weight_at};
use crate::rate::{Rate, after, times_for};
use kern_rows::Filter;
use river_base::{Listed, Name, NoMemory, count_of};
use river_kernels::Kernel;
use river_plan::Op;
use std::alloc::Global;

/// The sum of the weights; nothing where it is too large.
fn cycle(weights: &[i64]) -> Option<u64>
    ensures { IfSome result (λ n. n ≡ index.cycle (shares weights.now)) }
{
    let mut sum: u64 = 0;
    for w in weights {
        sum = sum.checked_add(count_of(*w))?;
    }
    Some(sum)
}

/// What a filter gives of a queue, whose own rate is this; nothing where a number is too large.
fn behind_rate(f: &Filter, own: Rate, s: Spot) -> Option<Spot>
    ensures { IfSome result (λ r. known_of r ≡ walk.behind_filter (known_of s) (period_of own) (periods.filter_fades (filter_form f.now) (filter_form f.now).first)) }
{
    let rate = after(s.rate, own)?;
    let fades = filter_fades(f, s.fades)?;
    Some(Spot { rate, fades })
}

/// What the filter of this name gives of a queue.
fn behind_filter(label: &Name, f: &Filter, s: Spot) -> Result<Spot, NoRate>
    ensures is { IfOk result (walked_filter (filter_form f.now) (known_of s)) }
    ensures cause { IfErr result (SaysCause label.now (walk.rated (periods.filter_period label.now (filter_form f.now)))) }
{
    let Some(own) = filter_rate(f) else {
        return Err(NoRate::Keeps(*label));
    };
    match behind_rate(f, own, s) {
        Some(spot) => Ok(spot),
        None => Err(NoRate::Large),
    }
}

/// What a splitter deals of a queue to a branch of this weight.
fn dealt_to(all: u64, weight: u64, s: Spot) -> Option<Spot>
    ensures { IfSome result (λ r. known_of r ≡ share_of all weight (known_of s)) }
{
    let rate = after(
        s.rate,
        Rate {
            takes: all,
            gives: weight,
            reach: 0,
        },
    )?;
    let fades = times_for(s.fades, all).checked_mul(weight)?;
    Some(Spot { rate, fades })
}

/// What a joiner gives of what it has in its cycles.
fn joined_at(weights: &[i64], s: Spot) -> Option<Spot>
    ensures { IfSome result (λ r. known_of r ≡ walk.joined_at (shares weights.now) (known_of s)) }
{
    let all = cycle(weights)?;
    let gives = s.rate.gives.checked_mul(all)?;
    let fades = s.fades.checked_mul(all)?;
    Some(Spot {
        rate: Rate {
            takes: s.rate.takes,
            gives,
            reach: s.rate.reach,
        },
        fades,
    })
}

/// Each of these queues has what is known of one.
fn copied(s: Spot, writes: &[Name], entries: &mut Listed<Entry>) -> Result<(), NoMemory>
    ensures { OnOk result (walk.each_known (λ i. known_of s) 0 writes.now (queues_of entries.old) ≡ queues_of entries.new) }
{
    for i in 0..writes.len() {
        entries.push(Entry {
            name: writes[i],
            spot: s,
        })?;
    }
    Ok(())
}

/// Each of these queues has its share of what is known of one, of a cycle of so many items.
fn dealt(
    weights: &[i64],
    all: u64,
    s: Spot,
    writes: &[Name],
    entries: &mut Listed<Entry>,
) -> Result<(), NoRate>
    requires { all ≡ index.cycle (shares weights.now) }
    ensures is { OnOk result (walk.each_known (λ i. walk.dealt_to (shares weights.now) i (known_of s)) 0 writes.now (queues_of entries.old) ≡ queues_of entries.new) }
    ensures room { IfErr result IsRoom }
{
    for i in 0..writes.len() {
        let Some(spot) = dealt_to(all, weight_at(weights, i), s) else {
            return Err(NoRate::Large);
        };
        entries.push(Entry {
            name: writes[i],
            spot,
        })?;
    }
    Ok(())
}

// What is known of the one queue that the operator of this name reads.
fn the_one(label: &Name, reads: &[Name], entries: &[Entry]) -> Result<Spot, NoRate>
    ensures is { IfOk result (λ s. reads_one reads.now (queues_of entries.now) (known_of s)) }
    ensures cause { IfErr result (SaysCause label.now (the_known label.now reads.now (queues_of entries.now))) }
{
    match reads {
        [queue] => known(label, entries, queue),
        _ => Err(NoRate::Lacks(*label)),
    }
}

// Of the one queue that the operator of this name writes this is known.
fn written(
    label: &Name,
    writes: &[Name],
    spot: Spot,
    entries: &mut Listed<Entry>,
) -> Result<(), NoRate>
    ensures is { OnOk result (writes_one writes.now (known_of spot) (queues_of entries.old) (queues_of entries.new)) }
    ensures cause { IfErr result (SaysCause label.now (walk.the_one label.now writes.now)) }
{
    match writes {
        [queue] => {
            entries.push(Entry { name: *queue, spot })?;
            Ok(())
        }
        _ => Err(NoRate::Lacks(*label)),
    }
}

/// A filter.
fn filter_op(
    label: &Name,
    f: &Filter,
    reads: &[Name],
    writes: &[Name],
    entries: &mut Listed<Entry>,
) -> Result<(), NoRate>
    ensures is { OnOk result (walks (filter (filter_form f.now)) label.now reads.now writes.now (queues_of entries.old) (queues_of entries.new)) }
    ensures cause { IfErr result (stops (filter (filter_form f.now)) label.now reads.now writes.now (queues_of entries.old)) }
{
    let s = the_one(label, reads, entries.as_slice())?;
    let spot = behind_filter(label, f, s)?;
    written(label, writes, spot, entries)
}

/// A splitter that copies to so many ports.
fn copy_op(
    label: &Name,
    _ports: u32,
    reads: &[Name],
    writes: &[Name],
    entries: &mut Listed<Entry>,
) -> Result<(), NoRate>
    ensures is { OnOk result (walks (duplicate _ports) label.now reads.now writes.now (queues_of entries.old) (queues_of entries.new)) }
    ensures cause { IfErr result (stops (duplicate _ports) label.now reads.now writes.now (queues_of entries.old)) }
{
    let s = the_one(label, reads, entries.as_slice())?;
    copied(s, writes, entries)?;
    Ok(())
}

/// A splitter that deals.
fn deal_op(
    label: &Name,
    weights: &[i64],
    reads: &[Name],
    writes: &[Name],
    entries: &mut Listed<Entry>,
) -> Result<(), NoRate>
    ensures is { OnOk result (walks (deal weights.now) label.now reads.now writes.now (queues_of entries.old) (queues_of entries.new)) }
    ensures cause { IfErr result (stops (deal weights.now) label.now reads.now writes.now (queues_of entries.old)) }
{
    let s = the_one(label, reads, entries.as_slice())?;
    let Some(all) = cycle(weights) else {
        return Err(NoRate::Large);
    };
    dealt(weights, all, s, writes, entries)
}

/// A joiner.
fn join_op(
    label: &Name,
    weights: &[i64],
    reads: &[Name],
    writes: &[Name],
    entries: &mut Listed<Entry>,
) -> Result<(), NoRate>
    ensures is { OnOk result (walks (collect weights.now) label.now reads.now writes.now (queues_of entries.old) (queues_of entries.new)) }
    ensures cause { IfErr result (stops (collect weights.now) label.now reads.now writes.now (queues_of entries.old)) }
{
    let s = turns(label, weights, 0, entries.as_slice(), reads)?;
    let Some(spot) = joined_at(weights, s) else {
        return Err(NoRate::Large);
    };
    written(label, writes, spot, entries)
}

/// An operator.
pub fn walk_op(op: &Op, entries: &mut Listed<Entry>) -> Result<(), NoRate>
    ensures is { OnOk result (walks_op (op_form op.now) (queues_of entries.old) (queues_of entries.new)) }
    ensures cause { IfErr result (SaysCauseOf (op_form op.now) (queues_of entries.old)) }
{
    let label = &op.label;
    let reads = op.reads.as_slice();
    let writes = op.writes.as_slice();
    match &op.kernel {
        Kernel::Filter(f) => filter_op(label, f, reads, writes, entries),
        Kernel::Duplicate(ports) => copy_op(label, *ports, reads, writes, entries),
        Kernel::Deal(weights) => deal_op(label, weights.as_slice(), reads, writes, entries),
        Kernel::Collect(weights) => join_op(label, weights.as_slice(), reads, writes, entries),
        Kernel::Code(_)
        | Kernel::Packed(_)
        | Kernel::Unpack(_)
        | Kernel::Window(_)
        | Kernel::Select(_)
        | Kernel::Project(_)
        | Kernel::Cross
        | Kernel::Streamer(_)
        | Kernel::Tally
        | Kernel::Fused { .. } => Err(NoRate::Lacks(*label)),
    }
}

/// The operators of a plan.
pub fn walk_ops(ops: &[Op], entries: &mut Listed<Entry>) -> Result<(), NoRate>
    ensures is { OnOk result (walk.walk (op_forms ops.now) (queues_of entries.old) ≡ Ok (queues_of entries.new)) }
    ensures stops { IfErr result (StopsAt (op_forms ops.now) (queues_of entries.old)) }
{
    for op in ops {
        walk_op(op, entries)?;
    }
    Ok(())
}

// What is known of a queue behind these operators.
fn walked(ops: &[Op], entries: &mut Listed<Entry>, queue: &Name) -> Result<Option<Spot>, NoRate>
    ensures is { IfOk result (λ o. MatchOption o (is_unknown_from (op_forms ops.now) (queues_of entries.old) queue.now)
        (is_known_from (op_forms ops.now) (queues_of entries.old) queue.now)) }
    ensures stops { IfErr result (StopsAt (op_forms ops.now) (queues_of entries.old)) }
{
    walk_ops(ops, entries)?;
    Ok(found(entries.as_slice(), queue))
}

/// What is known of a queue of a plan of one input: nothing where no operator writes it.
///
/// # Errors
///
/// Why an operator leaves nothing known; `Large` where a number is above 2^64 - 1.
#[tactic(auto, using(crate::proofs::Causes::no_memory_stops))]
pub fn rate_of(
    alloc: Global,
    ops: &[Op],
    input: &Name,
    queue: &Name,
) -> Result<Option<Spot>, NoRate>
    ensures is { IfOk result (λ o. MatchOption o (is_unknown (op_forms ops.now) input.now queue.now) (is_known (op_forms ops.now) input.now queue.now)) }
    ensures stops { IfErr result (stops_from (op_forms ops.now) input.now) }
{
    let mut entries = Listed::new(alloc);
    let rate = Rate {
        takes: 1,
        gives: 1,
        reach: 0,
    };
    let spot = Spot { rate, fades: 0 };
    match entries.push(Entry { name: *input, spot }) {
        Ok(()) => walked(ops, &mut entries, queue),
        Err(NoMemory) => Err(NoRate::NoMemory),
    }
}
