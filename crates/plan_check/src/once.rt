// Queues that are written or read twice, and variables that are shared.
ghost use Rattle.std.specs.Prelude.{◌≤◌, length, IfOk, IsTrue, ◌↔◌};
ghost use Rattle.std.specs.List.Sorted.{IsStrictlyIncreasing};
ghost use Rattle.river_base.specs.Places.{list_at};
ghost use Rattle.river_plan.specs.ByUsers.{IsOnceAt, IsApartAt};
ghost use Rattle.river_plan.specs.Faults.{WrittenTwice, ReadTwice, Shared};
ghost use Rattle.river_plan.specs.First.{IsFirst};
ghost use Rattle.river_plan.specs.Forms.{plan_form};
ghost use Rattle.river_plan.specs.Wired.{AreNamed, IsWired};

use crate::lists::{queue_names, variable_names};
use crate::search::{as_queue, as_variable};
use river_base::{Listed, Name, NoMemory};
use river_plan::{Named, Names, Places, RawPlan, Wiring};
use std::alloc::Global;

/// The first queue that is written twice, or that is an input and written.
pub(crate) fn written_twice(
    alloc: Global,
    raw: &RawPlan,
    wiring: &Wiring,
) -> Result<Option<Named>, NoMemory>
    requires named { AreNamed (plan_form raw.now) }
    requires wired { IsWired (plan_form raw.now) wiring.now }
    ensures { IfOk result (WrittenTwice (plan_form raw.now)) }
{
    let names = queue_names(alloc, raw)?;
    let inputs = raw.inputs.len();
    let found = used_twice(&names, &wiring.writes.by_place, raw.outputs.len(), inputs);
    Ok(as_queue(found))
}

/// The first queue that is read twice, or that is an output and read.
pub(crate) fn read_twice(
    alloc: Global,
    raw: &RawPlan,
    wiring: &Wiring,
) -> Result<Option<Named>, NoMemory>
    requires named { AreNamed (plan_form raw.now) }
    requires wired { IsWired (plan_form raw.now) wiring.now }
    ensures { IfOk result (ReadTwice (plan_form raw.now)) }
{
    let names = queue_names(alloc, raw)?;
    let found = used_twice(&names, &wiring.reads.by_place, 0, raw.outputs.len());
    Ok(as_queue(found))
}

/// The first variable that stands twice in one operator, or that is private and stands in two.
pub(crate) fn shared(
    alloc: Global,
    raw: &RawPlan,
    wiring: &Wiring,
) -> Result<Option<Named>, NoMemory>
    requires named { AreNamed (plan_form raw.now) }
    requires wired { IsWired (plan_form raw.now) wiring.now }
    ensures { IfOk result (Shared (plan_form raw.now)) }
{
    let names = variable_names(alloc, raw)?;
    let found = first_shared(&names, &wiring.vars.by_place, raw.tables.len());
    Ok(as_variable(found))
}

// The first of these names that has two users, or that is one of the `count` from place `first` on and has one; the
// users of a name stand at its place.
fn used_twice(names: &Names, users: &Listed<Places>, first: usize, count: usize) -> Option<Name>
    requires { length names.now ≤ length users.now }
    ensures { IsFirst (λ before name. IsOnceAt first count (length before) (length (list_at users.now (length before)))) names.now result }
{
    for place in 0..names.len() {
        if !is_once(first, count, place, users.at(place).len()) {
            return Some(*names.at(place));
        }
    }
    None
}

// Whether so many users are not too many for the place.
fn is_once(first: usize, count: usize, place: usize, users: usize) -> bool
    ensures { IsTrue result ↔ IsOnceAt first count place users }
{
    users == 0 || (users == 1 && (place < first || place - first >= count))
}

// The first of these names that an operator has twice, or that is private, since it comes behind the tables, and that
// two have; the users of a name stand at its place.
fn first_shared(names: &Names, users: &Listed<Places>, tables: usize) -> Option<Name>
    requires { length names.now ≤ length users.now }
    ensures { IsFirst (λ before name. IsApartAt tables (length before) (list_at users.now (length before))) names.now result }
{
    for place in 0..names.len() {
        if !is_apart(tables, place, users.at(place)) {
            return Some(*names.at(place));
        }
    }
    None
}

// Whether no user stands twice, nor two where the variable at the place is private.
fn is_apart(tables: usize, place: usize, users: &Places) -> bool
    ensures { IsTrue result ↔ IsApartAt tables place users.now }
{
    is_rising(users.as_slice()) && (place < tables || users.len() <= 1)
}

// Whether each number is below the next.
fn is_rising(numbers: &[usize]) -> bool
    ensures { IsTrue result ↔ IsStrictlyIncreasing numbers.now }
{
    for next in 1..numbers.len() {
        if numbers[next] <= numbers[next - 1] {
            return false;
        }
    }
    true
}
