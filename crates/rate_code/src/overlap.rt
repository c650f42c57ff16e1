//! How pieces overlap, of which each has whole periods.
ghost use Rattle.std.specs.Prelude.{◌≡◌, ◌≤◌, ◌<◌, ◌+◌, ◌*◌, ◌-◌, ℕ, IfOk, IfErr};
ghost use Rattle.rate_code.specs.Entries.{known_of};
ghost use Rattle.rate_code.specs.Overlaps.{Overlaps, WhyNoOverlap, Fits};
ghost use Rattle.rate_code.specs.Rate.{period_of};

use crate::queues::Spot;
use crate::rate::{Rate, times_for};

/// How pieces overlap.
#[derive(Clone, Copy, Debug, PartialEq, Eq)]
pub struct Overlap {
    /// How many items a piece has; the last one may have fewer.
    pub items: u32,
    /// Behind how many items of a piece the next one begins.
    pub step: u32,
    /// How many items of what a piece gives are kept; of the last one all are.
    pub keep: u32,
    /// How many of those are let go at the front; of the first one none are.
    pub let_go: u32,
}

/// Why there are no such pieces.
#[derive(Clone, Copy, Debug, PartialEq, Eq)]
pub enum NoOverlap {
    /// Periods give nothing, and what first firings leave behind is all that comes.
    Finite,
    /// A piece with one period more than it begins earlier, and with what is looked at beyond, is longer than it may be, or gives 2^32 items or
    /// more.
    Long,
}

/// How pieces of at most so many items overlap.
pub fn overlap_of(spot: Spot, size: u32) -> Result<Overlap, NoOverlap>
    ensures is { IfOk result (Overlaps (known_of spot) size) }
    ensures why { IfErr result (WhyNoOverlap (known_of spot) size) }
{
    if spot.rate.gives == 0 && spot.fades > 0 {
        return Err(NoOverlap::Finite);
    }
    let early = times_for(spot.fades, spot.rate.gives);
    let periods = most_periods(spot.rate, size);
    if periods <= early {
        return Err(NoOverlap::Long);
    }
    Ok(overlapping(spot.rate, size, early, periods))
}

// How many periods a piece has at most.
fn most_periods(rate: Rate, size: u32) -> u64
    ensures some { 0 < result → Fits (period_of rate) size result }
    ensures most { (n : ℕ) → Fits (period_of rate) size n → n ≤ result }
{
    let size = u64::from(size);
    if rate.takes == 0 || size < rate.reach {
        return 0;
    }
    let fit = (size - rate.reach) / rate.takes;
    if rate.gives == 0 {
        return fit;
    }
    fit.min(4_294_967_295 / rate.gives)
}

// The pieces of so many periods that begin so many earlier.
fn overlapping(rate: Rate, size: u32, early: u64, periods: u64) -> Overlap
    requires more { early < periods }
    requires fits { Fits (period_of rate) size periods }
    ensures items { result.items ≡ periods * rate.takes + rate.reach }
    ensures step { result.step ≡ (periods - early) * rate.takes }
    ensures keep { result.keep ≡ periods * rate.gives }
    ensures let_go { result.let_go ≡ early * rate.gives }
{
    Overlap {
        items: (periods * rate.takes + rate.reach) as u32,
        step: ((periods - early) * rate.takes) as u32,
        keep: (periods * rate.gives) as u32,
        let_go: (early * rate.gives) as u32,
    }
}
