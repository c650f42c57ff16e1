// A count of faults.
ghost use Rattle.std.specs.Prelude.{◌≡◌, ◌+◌, ◌≤◌, min, true};
ghost use Rattle.river_outside.specs.Causes.{Rose, last};

/// One fault more. The count stays at its last value.
pub(crate) fn one_fault_more(faults: u64) -> u64
    ensures next { result ≡ min (faults + 1) last }
    ensures later { faults ≤ result }
    ensures rose { Rose true faults result }
{
    faults.saturating_add(1)
}
