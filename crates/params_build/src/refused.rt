// Why a unit is refused, and why a program is.

use params_model::{Fault, Refusal};
use river_base::NoMemory;

/// Why nothing is made of a program.
#[derive(Clone, Copy)]
pub enum Refused {
    /// The program is refused.
    Program(Refusal),
    /// There was no memory.
    NoMemory,
}

/// Why a unit is not read.
#[derive(Clone, Copy)]
pub(crate) enum RefusedUnit {
    /// It has this fault.
    Fault(Fault),
    /// There was no memory.
    NoMemory,
}

impl From<NoMemory> for Refused {
    ghost use Rattle.std.specs.Prelude.{◌≡◌};
    ghost use Rattle.params_build.specs.declared.refused.Refused.TheVariants as refused;

    ghost from_gives = { λ _ r. r ≡ refused.NoMemory };

    fn from(_: NoMemory) -> Self {
        Refused::NoMemory
    }
}

impl From<Fault> for RefusedUnit {
    ghost use Rattle.std.specs.Prelude.{◌≡◌};
    ghost use Rattle.params_build.specs.declared.refused.RefusedUnit.TheVariants as refused;

    ghost from_gives = { λ f r. r ≡ refused.Fault f };

    fn from(fault: Fault) -> Self {
        RefusedUnit::Fault(fault)
    }
}

impl From<NoMemory> for RefusedUnit {
    ghost use Rattle.std.specs.Prelude.{◌≡◌};
    ghost use Rattle.params_build.specs.declared.refused.RefusedUnit.TheVariants as refused;

    ghost from_gives = { λ _ r. r ≡ refused.NoMemory };

    fn from(_: NoMemory) -> Self {
        RefusedUnit::NoMemory
    }
}
