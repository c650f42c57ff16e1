// Queues that are read before they are written.
ghost use Rattle.std.specs.Prelude.{◌≡◌, length, IsTrue, ◌↔◌, slice_index};
ghost use Rattle.river_base.specs.Places.{list_at};
ghost use Rattle.river_plan.specs.ByUsers.{IsBefore, IsKnownAt};
ghost use Rattle.river_plan.specs.Faults.{ReadTooEarly};
ghost use Rattle.river_plan.specs.First.{IsFirst};
ghost use Rattle.river_plan.specs.Forms.{plan_form};
ghost use Rattle.river_plan.specs.Wired.{AreNamed, IsWired};

use river_base::{Listed, Name};
use river_plan::{Named, Names, Places, RawPlan, Wiring};

/// The first queue that an operator reads, and that is neither an input nor written by an operator listed before.
pub(crate) fn read_too_early(raw: &RawPlan, wiring: &Wiring) -> Option<Named>
    requires named { AreNamed (plan_form raw.now) }
    requires wired { IsWired (plan_form raw.now) wiring.now }
    ensures { ReadTooEarly (plan_form raw.now) result }
{
    for op in 0..raw.ops.len() {
        let reads = &raw.ops.at(op).reads;
        let places = wiring.reads.by_op.at(op);
        if let Some(name) = first_early(raw, &wiring.writes.by_place, op, reads, places) {
            return Some(Named::Queue(name));
        }
    }
    None
}

// The first of these names, which have these places, that is not known to the operator of this number; the operators
// that write a queue stand at its place.
fn first_early(
    raw: &RawPlan,
    writers: &Listed<Places>,
    op: usize,
    reads: &Names,
    places: &Places,
) -> Option<Name>
    requires { length places.now ≡ length reads.now }
    ensures { IsFirst (λ before name. IsKnownAt (length raw.now.outputs) (length raw.now.inputs) op writers.now
        (slice_index places.now (length before))) reads.now result }
{
    for port in 0..reads.len() {
        let place = *places.at(port);
        if !is_known(raw.outputs.len(), raw.inputs.len(), op, writers, place) {
            return Some(*reads.at(port));
        }
    }
    None
}

// Whether the place is one of the `count` from `first` on, or its first user comes before this operator.
fn is_known(first: usize, count: usize, op: usize, users: &Listed<Places>, place: usize) -> bool
    ensures { IsTrue result ↔ IsKnownAt first count op users.now place }
{
    (first <= place && place - first < count) || is_before(users, place, op)
}

// Whether the first user of the place comes before this operator.
fn is_before(users: &Listed<Places>, place: usize, op: usize) -> bool
    ensures { IsTrue result ↔ IsBefore op (list_at users.now place) }
{
    place < users.len() && is_first_before(users.at(place).as_slice(), op)
}

// Whether there is a number, and the first is below this one.
fn is_first_before(numbers: &[usize], op: usize) -> bool
    ensures { IsTrue result ↔ IsBefore op numbers.now }
{
    match numbers {
        [] => false,
        [first, ..] => *first < op,
    }
}
