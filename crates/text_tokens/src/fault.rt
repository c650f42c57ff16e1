// What can be wrong with the bytes of a text.
ghost use Rattle.std.specs.Prelude.{◌≡◌};
ghost use Rattle.text_tokens.specs.declared.fault.LexFault.TheVariants.{NoMemory};

use river_base as base;
use std::alloc::{AllocError, AllocFailed};

/// Why a text has no tokens.
#[derive(Clone, Copy)]
pub enum LexFault {
    /// At this byte no token, separator or comment begins; an open `/*` counts at its first byte.
    BadByte { at: u32 },
    /// At this byte a number above 9223372036854775807 begins.
    BigNumber { at: u32 },
    /// There was no memory.
    NoMemory,
}

impl From<base::NoMemory> for LexFault {
    ghost from_gives = { λ _ e. e ≡ NoMemory };

    fn from(_: base::NoMemory) -> Self {
        LexFault::NoMemory
    }
}

impl From<AllocError> for LexFault {
    ghost from_gives = { λ _ e. e ≡ NoMemory };

    fn from(_: AllocError) -> Self {
        LexFault::NoMemory
    }
}

impl<T: Drop> From<AllocFailed<T>> for LexFault {
    ghost from_gives = { λ _ e. e ≡ NoMemory };

    fn from(_: AllocFailed<T>) -> Self {
        LexFault::NoMemory
    }
}
