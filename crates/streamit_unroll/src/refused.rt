// Why a unit is not read.

use river_base::NoMemory;
use std::alloc::{AllocError, AllocFailed};
use streamit_model::Fault;

/// Why a unit is not read.
#[derive(Clone, Copy)]
pub enum RefusedUnit {
    /// It has this fault.
    Fault(Fault),
    /// There was no memory.
    NoMemory,
}

impl From<NoMemory> for RefusedUnit {
    ghost use Rattle.std.specs.Prelude.{◌≡◌};
    ghost use Rattle.streamit_unroll.specs.declared.refused.RefusedUnit.TheVariants as refused;

    ghost from_gives = { λ _ r. r ≡ refused.NoMemory };

    fn from(_: NoMemory) -> Self {
        RefusedUnit::NoMemory
    }
}

impl From<AllocError> for RefusedUnit {
    ghost use Rattle.std.specs.Prelude.{◌≡◌};
    ghost use Rattle.streamit_unroll.specs.declared.refused.RefusedUnit.TheVariants as refused;

    ghost from_gives = { λ _ r. r ≡ refused.NoMemory };

    fn from(_: AllocError) -> Self {
        RefusedUnit::NoMemory
    }
}

impl<T: Drop> From<AllocFailed<T>> for RefusedUnit {
    ghost use Rattle.std.specs.Prelude.{◌≡◌};
    ghost use Rattle.streamit_unroll.specs.declared.refused.RefusedUnit.TheVariants as refused;

    ghost from_gives = { λ _ r. r ≡ refused.NoMemory };

    fn from(_: AllocFailed<T>) -> Self {
        RefusedUnit::NoMemory
    }
}
