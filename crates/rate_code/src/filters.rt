//! The rate of a filter.
ghost use Rattle.std.specs.Prelude.{◌≡◌, ◌-◌, ℕ, List, IfSome, IfNone, Ok, Err};
ghost use Rattle.work_code.specs.Steps.{step, steps};
ghost use Rattle.kern_rows.specs.Forms.{filter_form};
ghost use Rattle.rate_code.specs.Rate.{period_of};
ghost use Rattle.stream_periods.specs.Periods as periods;

use crate::rate::{Rate, times_for};
use kern_rows::Filter;
use work_code::{Stmt, Stmts};

// Whether a slot below this number is set.
#[cycle(sets)]
fn sets_once(s: &Stmt, n: usize) -> bool
    ensures { result ≡ periods.sets_below n (step s.now) }
{
    match s {
        Stmt::Set { slot, .. } => (*slot as usize) < n,
        Stmt::Push { .. } => false,
        Stmt::If { yes, no, .. } => sets_below(yes, n) || sets_below(no, n),
    }
}

/// Whether one of the statements sets a slot below this number.
#[cycle(sets)]
pub fn sets_below(all: &Stmts, n: usize) -> bool
    ensures { result ≡ periods.any_sets_below n (steps all.now) }
{
    for s in all.as_slice() {
        if sets_once(s, n) {
            return true;
        }
    }
    false
}

// So much less; 0 where there is no more.
fn less(a: u64, b: u64) -> u64
    ensures { result ≡ a - b }
{
    if a < b { 0 } else { a - b }
}

/// The rate of a filter that sets no field; nothing where it sets one.
pub fn filter_rate(f: &Filter) -> Option<Rate>
    ensures some { IfSome result (λ r. (name : List ℕ) → periods.filter_period name (filter_form f.now) ≡ Ok (period_of r)) }
    ensures takes { IfSome result (λ r. r.takes ≡ f.now.pop) }
    ensures none { IfNone result ((name : List ℕ) → periods.filter_period name (filter_form f.now) ≡ Err (periods.Keeps name)) }
{
    let fields = f.starts.len();
    if sets_below(f.code.body.stmts(), fields) {
        return None;
    }
    let takes = f.pop as u64;
    let gives = f.push as u64;
    match &f.first {
        None => Some(Rate {
            takes,
            gives,
            reach: less(f.peek as u64, takes),
        }),
        Some(first) => {
            if sets_below(first.code.body.stmts(), fields) {
                return None;
            }
            let waits = if first.peek < 1 { 1 } else { first.peek as u64 };
            let usual = less(first.pop as u64 + f.peek as u64, takes);
            let reach = if waits < usual { usual } else { waits };
            Some(Rate {
                takes,
                gives,
                reach,
            })
        }
    }
}

/// Behind so many items of what a filter gives the first items of what it takes have no effect, nor has its first firing; nothing where a number is
/// too large.
pub fn filter_fades(f: &Filter, items: u64) -> Option<u64>
    ensures { IfSome result (λ n. n ≡ periods.filter_fades (filter_form f.now) (filter_form f.now).first items) }
{
    match &f.first {
        None => times_for(items, f.pop as u64).checked_mul(f.push as u64),
        Some(first) => {
            let pop = first.pop as u64;
            let left = if items < pop { 0 } else { items - pop };
            let later = times_for(left, f.pop as u64).checked_mul(f.push as u64)?;
            later.checked_add(first.push as u64)
        }
    }
}
