// What came to a relation, and what went.
ghost use Rattle.std.specs.Prelude.{◌≡◌, ◌≤◌, length, drop, IfOk};
ghost use Rattle.river_base.specs.Held.{IsAscending};
ghost use Rattle.river_base.specs.Row.{in_order};
ghost use Rattle.kern_bags.specs.Contents.{without, difference};
ghost use Rattle.kern_changes.specs.Needs.{rows_from};
ghost use Rattle.cql_model.specs.Streams.{changed};

use cql_text::Kind;
use river_base::{Duplicate, NoMemory, Row, Rows, compare};
use std::alloc::Global;

/// What a relation becomes as a stream, where it had some rows before and has some now: in ascending order.
pub(crate) fn changed(
    alloc: Global,
    kind: Kind,
    before: &Rows,
    rows: &Rows,
) -> Result<Rows, NoMemory>
    ensures { IfOk result (λ stream. stream ≡ in_order (changed kind before.now rows.now)) }
{
    match kind {
        Kind::Istream => without(alloc, rows, before),
        Kind::Dstream => without(alloc, before, rows),
        Kind::Rstream => sorted(alloc, rows),
    }
}

// The rows in ascending order.
fn sorted(alloc: Global, rows: &Rows) -> Result<Rows, NoMemory>
    ensures sorted { IfOk result (λ sorted. sorted ≡ in_order rows.now) }
    ensures ascending { IfOk result (λ sorted. IsAscending sorted) }
{
    let mut sorted = rows.copy(alloc)?;
    sorted.sort()?;
    Ok(sorted)
}

// The rows without others, in ascending order: each of the others takes one such row away, where there is one.
fn without(alloc: Global, rows: &Rows, others: &Rows) -> Result<Rows, NoMemory>
    ensures { IfOk result (λ left. left ≡ in_order (without rows.now others.now)) }
{
    let rows = sorted(alloc, rows)?;
    let others = sorted(alloc, others)?;
    difference(alloc, &rows, &others)
}

// The same of rows in ascending order.
fn difference(alloc: Global, rows: &Rows, others: &Rows) -> Result<Rows, NoMemory>
    requires rows { IsAscending rows.now }
    requires others { IsAscending others.now }
    ensures { IfOk result (λ left. left ≡ difference rows.now others.now) }
{
    let mut left = Rows::new(alloc);
    let mut place = 0;
    for row in rows.as_slice() {
        place = place_from(others, place, row);
        if place < others.len() && others.at(place) == row {
            place += 1;
        } else {
            left.push(*row)?;
        }
    }
    Ok(left)
}

// The first place, from this one on, of a row that is not below a row.
fn place_from(rows: &Rows, from: usize, row: &Row) -> usize
    requires { from ≤ length rows.now }
    ensures within { result ≤ length rows.now }
    ensures rest { drop result rows.now ≡ rows_from row.now (drop from rows.now) }
{
    let mut place = from;
    while place < rows.len() && compare(rows.at(place), row).is_lt() {
        place += 1;
    }
    place
}
