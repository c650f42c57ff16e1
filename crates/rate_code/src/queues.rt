//! What is known of the queues of a plan.
ghost use Rattle.std.specs.Prelude.{◌≡◌, ◌≤◌, ◌+◌, length, Some, None, Ok, IfSome, IfNone, IfOk, IfErr, MatchOption};
ghost use Rattle.kern_rows.specs.Turns.{shares};
ghost use Rattle.streamit_model.specs.Meaning.{look};
ghost use Rattle.stream_periods.specs.Periods.{weight};
ghost use Rattle.stream_periods.specs.Walk as walk;
ghost use Rattle.rate_code.specs.Cause.{IsRoom, SaysCause, stepped};
ghost use Rattle.rate_code.specs.Rate.{IsSmall};
ghost use Rattle.rate_code.specs.Entries.{known_of, queues_of};

use crate::cause::NoRate;
use crate::rate::{Rate, Step, beside, in_cycles, times_for};
use river_base::{Name, count_of};

/// The rate of a queue, as a function of the input, and behind how many of its items first firings have no effect.
#[derive(Clone, Copy)]
pub struct Spot {
    pub rate: Rate,
    pub fades: u64,
}

/// What is known of the queue of this name.
#[derive(Clone, Copy)]
pub struct Entry {
    pub name: Name,
    pub spot: Spot,
}

/// What is known of a queue.
pub fn found(entries: &[Entry], name: &Name) -> Option<Spot>
    ensures { MatchOption result (look (queues_of entries.now) name.now ≡ None) (λ s. look (queues_of entries.now) name.now ≡ Some (known_of s)) }
{
    let mut i = entries.len();
    while i > 0 {
        i -= 1;
        if entries[i].name == *name {
            return Some(entries[i].spot);
        }
    }
    None
}

/// A queue in cycles of the joiner; nothing where a number is too large.
pub fn in_turn(weight: u64, s: Spot) -> Option<Spot>
    ensures some { IfSome result (λ r. known_of r ≡ walk.in_turn weight (known_of s)) }
    ensures none { IfNone result (IsSmall (walk.in_turn weight (known_of s)).period → ⊥) }
{
    let rate = in_cycles(weight, s.rate)?;
    let fades = times_for(s.fades, weight);
    Some(Spot { rate, fades })
}

// One branch before those behind it, all in cycles of the joiner of this name.
fn before(label: &Name, weight: u64, s: Spot, others: Spot) -> Result<Spot, NoRate>
    ensures is { IfOk result (λ r. stepped weight (known_of s) (known_of others) ≡ Ok (known_of r)) }
    ensures cause { IfErr result (SaysCause label.now (stepped weight (known_of s) (known_of others))) }
{
    let Some(first) = in_turn(weight, s) else {
        return Err(NoRate::Large);
    };
    match beside(first.rate, others.rate) {
        Step::Kept(rate) => {
            let fades = if first.fades < others.fades {
                others.fades
            } else {
                first.fades
            };
            Ok(Spot { rate, fades })
        }
        Step::Unbalanced => Err(NoRate::Unbalanced(*label)),
        Step::Large => Err(NoRate::Large),
    }
}

// The weight at a place; 0 where there is none.
pub(crate) fn weight_at(weights: &[i64], place: usize) -> u64
    ensures { result ≡ weight (shares weights.now) place }
{
    if place < weights.len() {
        count_of(weights[place])
    } else {
        0
    }
}

// What is known of a queue that the operator of this name reads.
pub(crate) fn known(label: &Name, entries: &[Entry], queue: &Name) -> Result<Spot, NoRate>
    ensures is { IfOk result (λ s. look (queues_of entries.now) queue.now ≡ Some (known_of s)) }
    ensures cause { IfErr result (SaysCause label.now (walk.or_lacks label.now (look (queues_of entries.now) queue.now))) }
{
    match found(entries, queue) {
        Some(spot) => Ok(spot),
        None => Err(NoRate::Lacks(*label)),
    }
}

// The last branch, in cycles of the joiner.
fn last(weight: u64, s: Spot) -> Result<Spot, NoRate>
    ensures is { IfOk result (λ r. known_of r ≡ walk.in_turn weight (known_of s)) }
    ensures room { IfErr result IsRoom }
{
    match in_turn(weight, s) {
        Some(spot) => Ok(spot),
        None => Err(NoRate::Large),
    }
}

/// The queues of the joiner of this name, from this place on, in its cycles.
pub fn turns(
    label: &Name,
    weights: &[i64],
    place: usize,
    entries: &[Entry],
    reads: &[Name],
) -> Result<Spot, NoRate>
    requires { place + length reads.now ≤ usize.MAX }
    ensures is { IfOk result (λ s. walk.turns label.now (shares weights.now) place (queues_of entries.now) reads.now ≡ Ok (known_of s)) }
    ensures cause { IfErr result (SaysCause label.now (walk.turns label.now (shares weights.now) place (queues_of entries.now) reads.now)) }
{
    let [queue, behind @ ..] = reads else {
        return Err(NoRate::Lacks(*label));
    };
    let spot = known(label, entries, queue)?;
    let weight = weight_at(weights, place);
    if behind.is_empty() {
        return last(weight, spot);
    }
    let others = turns(label, weights, place + 1, entries, behind)?;
    before(label, weight, spot, others)
}
