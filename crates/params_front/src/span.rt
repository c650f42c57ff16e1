// The turns of a loop of steps, and the values of arguments.
ghost use Rattle.std.specs.Prelude.{◌≡◌, map, IfOk};
ghost use Rattle.streamit_text.specs.Tree.{expression, is_turn};
ghost use Rattle.params_text.specs.Program.{expressions};
ghost use Rattle.params_model.specs.Environment.{value};
ghost use Rattle.params_model.specs.Laws.{HasValues, AreFit};
ghost use Rattle.params_front.specs.Turning.{IsRangedBound, Spans};
ghost use Rattle.params_front.specs.Valued.{IsFixed};

use params_print::{Bindings, value};
use river_base::{MOST_ITEMS, NoMemory, Numbers};
use std::alloc::Global;
use streamit_text::{Expr, Until};

/// The turns of a loop: the first value of its variable, and the one behind the last.
#[derive(Clone, Copy)]
pub(crate) struct Span {
    pub low: u32,
    pub end: u32,
}

impl Span {
    /// Whether there is at most one turn.
    pub(crate) fn is_short(&self) -> bool {
        self.end.saturating_sub(self.low) <= 1
    }
}

/// The value of a bound, which may be known before.
pub(crate) fn value_or(known: &Bindings, fixed: Option<i64>, c: &Expr) -> i64
    requires values { HasValues (expression c.now) }
    requires fixed { IsFixed fixed (value known.now (expression c.now)) }
    ensures { result ≡ value known.now (expression c.now) }
{
    match fixed {
        Some(value) => value,
        None => value(known, c),
    }
}

// A bound of a loop, where it is in range.
fn bound(value: i64) -> Option<u32>
    ensures { IsRangedBound result value }
{
    if 0 <= value && value <= MOST_ITEMS as i64 {
        Some(value as u32)
    } else {
        None
    }
}

/// The turns of a loop between these bounds, where both are in range.
pub(crate) fn span_between(low: i64, until: Until, high: i64) -> Option<Span>
    ensures { Spans result low (is_turn until) high }
{
    let low = bound(low)?;
    let high = bound(high)?;
    let end = match until {
        Until::Below => high,
        Until::UpTo => high + 1,
    };
    Some(Span { low, end })
}

/// The values of arguments.
pub(crate) fn values(alloc: Global, known: &Bindings, args: &Vec<Expr>) -> Result<Numbers, NoMemory>
    requires { AreFit (expressions args.now) }
    ensures { IfOk result (λ all. all ≡ map (value known.now) (expressions args.now)) }
{
    let mut all = Numbers::new(alloc);
    'items: for each in args.as_slice() {
        all.push(value(known, each))?;
    }
    Ok(all)
}
