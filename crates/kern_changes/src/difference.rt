// The difference of two bags.
ghost use Rattle.std.specs.Prelude.{◌≡◌, ◌≤◌, length, drop, IfOk};
ghost use Rattle.river_base.specs.Held.{IsAscending};
ghost use Rattle.river_base.specs.Changes.{difference};
ghost use Rattle.kern_changes.specs.Needs.{rows_from};

use river_base::{NoMemory, Row, Rows, compare};
use std::alloc::Global;

/// The rows of one ascending list without those of another: each row of the second takes one such
/// row away, where there is one. Takes memory for the rows that are left.
pub fn without(alloc: Global, rows: &Rows, others: &Rows) -> Result<Rows, NoMemory>
    requires rows { IsAscending rows.now }
    requires others { IsAscending others.now }
    ensures { IfOk result (λ left. left ≡ difference rows.now others.now) }
{
    let mut left = Rows::new(alloc);
    let mut place = 0;
    for row in rows.as_slice() {
        place = place_from(others, place, row);
        if place < others.len() && others.at(place) == row {
            place += 1;
        } else {
            left.push(*row)?;
        }
    }
    Ok(left)
}

// The first place, from this one on, of a row that is not below a row.
fn place_from(rows: &Rows, from: usize, row: &Row) -> usize
    requires { from ≤ length rows.now }
    ensures within { result ≤ length rows.now }
    ensures rest { drop result rows.now ≡ rows_from row.now (drop from rows.now) }
{
    let mut place = from;
    while place < rows.len() && compare(rows.at(place), row).is_lt() {
        place += 1;
    }
    place
}
