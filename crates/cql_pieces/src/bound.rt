// How windows and streamers move a bound, by the instants of a piece.
ghost use Rattle.std.specs.Prelude.{◌≡◌, fold};
ghost use Rattle.river_base.specs.Instants.{Timed};
ghost use Rattle.kern_bags.specs.Contents.{later};
ghost use Rattle.cql_text.specs.Tree.{window_of};
ghost use Rattle.cql_pieces.specs.Piece as piece;
ghost use Rattle.cql_pieces.specs.Moved.{AreCounts, times_of, less_at, last_wanting};

use cql_text::{Kind, Window};

/// The bound of a window on a stream that is right above this bound. For each instant of the piece, in order, stands how many rows
/// the stream has there.
#[tactic(auto, using(crate::proofs::Moved::pass_fills))]
pub fn window_moves(window: Window, rows: &[(i64, u64)], bound: i64) -> i128
    ensures { (s : Timed) → AreCounts s rows.now → result ≡ piece.window_moves (window_of window) (times_of rows.now) s bound }
{
    match window {
        Window::Now => i128::from(bound),
        Window::Range(span, _) => i128::from(bound) + i128::from(span.value),
        Window::Unbounded => i128::from(last_of(rows, bound)),
        Window::Rows(most) => i128::from(filled(u64::from(most), rows, bound)),
    }
}

// The latest of the bound and of all instants.
fn last_of(rows: &[(i64, u64)], bound: i64) -> i64
    ensures { result ≡ fold later bound (times_of rows.now) }
{
    let mut latest = bound;
    for row in rows {
        latest = latest_of(latest, row.0);
    }
    latest
}

fn latest_of(first: i64, second: i64) -> i64
    ensures { result ≡ later first second }
{
    if first < second { second } else { first }
}

// The latest of the bound and of the instants at which fewer than so many rows have come behind it.
fn filled(most: u64, rows: &[(i64, u64)], bound: i64) -> i64
    ensures { result ≡ last_wanting bound most bound rows.now }
{
    let mut wanting = most;
    let mut latest = bound;
    for row in rows {
        wanting = less_at(bound, row.0, row.1, wanting);
        if wanting > 0 {
            latest = latest_of(latest, row.0);
        }
    }
    latest
}

// What is wanting still, where so many rows come at an instant; those up to the bound are not counted.
fn less_at(bound: i64, at: i64, count: u64, wanting: u64) -> u64
    ensures { result ≡ less_at bound at count wanting }
{
    if bound < at {
        wanting.saturating_sub(count)
    } else {
        wanting
    }
}

/// The bound of the stream of a relation that is right above this bound: `Istream` and `Dstream` look at the instant before, so
/// theirs is the first of the piece's instants behind it.
pub fn kind_moves(kind: Kind, instants: &[i64], bound: i64) -> i64
    ensures { result ≡ piece.kind_moves kind instants.now bound }
{
    match kind {
        Kind::Istream | Kind::Dstream => next_after(bound, instants),
        Kind::Rstream => bound,
    }
}

// The first instant behind the bound, or the bound where there is none.
fn next_after(bound: i64, instants: &[i64]) -> i64
    ensures { result ≡ piece.next_after bound instants.now }
{
    for &instant in instants {
        if bound < instant {
            return instant;
        }
    }
    bound
}
