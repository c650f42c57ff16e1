// A count of faults.
ghost use Rattle.std.specs.Prelude.{◌≤◌, true};
ghost use Rattle.river_outside.specs.Causes.{Rose};

/// One fault more. The count stays at its last value.
pub(crate) fn one_more(faults: u64) -> u64
    ensures later { faults ≤ result }
    ensures rose { Rose true faults result }
{
    faults.saturating_add(1)
}
