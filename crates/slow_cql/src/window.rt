// The windows on the rows of a stream.
ghost use Rattle.std.specs.Prelude.{◌≡◌, ◌-◌, ◌&&◌, not, ℤ, length, map, filter, drop, int_le, int_lt, None};
ghost use Rattle.cql_model.specs.Streams.{in_reach};
ghost use Rattle.cql_text.specs.Tree.{window_of};
ghost use Rattle.cql_text.specs.declared.tree.Window.TheVariants.{Range};
ghost use Rattle.slow_cql.specs.Kept.{Entry, is_in_order, reached};

use cql_text::{Numeral, Window};
use river_base::Row;

/// The rows in a window at an instant, with their own instants, of rows in order of these.
pub(crate) fn reached(window: Window, entries: &[(i64, Row)], at: i64) -> &[(i64, Row)]
    requires { is_in_order entries.now }
    ensures { map (λ (e : Entry). e.1) result.now ≡ reached (window_of window) at entries.now }
{
    match window {
        Window::Now => not_below(up_to(entries, at), at),
        Window::Range(span, _) => not_below(up_to(entries, at), earliest(span, at)),
        Window::Unbounded => up_to(entries, at),
        Window::Rows(count) => last(up_to(entries, at), count),
    }
}

// The rows up to an instant.
fn up_to(entries: &[(i64, Row)], at: i64) -> &[(i64, Row)]
    requires { is_in_order entries.now }
    ensures rows { result.now ≡ filter (λ (e : Entry). int_le e.0 at) entries.now }
    ensures in_order { is_in_order result.now }
{
    let end = entries.partition_point(|entry| entry.0 <= at);
    &entries[..end]
}

// The rows from an instant on.
fn not_below(entries: &[(i64, Row)], at: i64) -> &[(i64, Row)]
    requires { is_in_order entries.now }
    ensures { result.now ≡ filter (λ (e : Entry). not (int_lt e.0 at)) entries.now }
{
    let first = entries.partition_point(|entry| entry.0 < at);
    &entries[first..]
}

// The last rows.
fn last(entries: &[(i64, Row)], count: u32) -> &[(i64, Row)]
    ensures { result.now ≡ drop (length entries.now - count) entries.now }
{
    let first = entries.len().saturating_sub(count as usize);
    &entries[first..]
}

// The first instant that a range reaches.
fn earliest(span: Numeral, at: i64) -> i64
    ensures { (u : ℤ) → (int_le u at && not (int_lt u result)) ≡ in_reach (window_of (Range span None)) at u }
{
    if at < 0 {
        return 0;
    }
    (at - span.value as i64).max(0)
}
