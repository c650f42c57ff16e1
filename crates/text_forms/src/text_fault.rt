// Why a text is not read, and what is told of it.
ghost use Rattle.text_forms.specs.TextFaults.{of_lexer, text_words};
ghost use Rattle.text_forms.specs.declared.text_fault.TextFault.TheVariants as fault;

use crate::{Told, numbered};
use river_base as base;
use river_base::Bytes;
use std::alloc::AllocFailed;
use text_tokens::LexFault;

/// Why a text is not read: what all fronts tell alike, and each extends by faults of its own.
#[derive(Clone, Copy)]
pub enum TextFault {
    /// At this byte, from 0, no token, separator or comment begins.
    BadByte { at: u32 },
    /// At this byte, from 0, a number begins that is too great.
    BigNumber { at: u32 },
    /// This unit, from 1, is the first that is not in the grammar.
    Syntax { unit: u32 },
    /// There was no memory.
    NoMemory,
}

impl From<LexFault> for TextFault {
    ghost use Rattle.std.specs.Prelude.{◌≡◌};

    ghost from_gives = { λ lexical f. f ≡ of_lexer lexical };

    fn from(lexical: LexFault) -> Self {
        match lexical {
            LexFault::BadByte { at } => TextFault::BadByte { at },
            LexFault::BigNumber { at } => TextFault::BigNumber { at },
            LexFault::NoMemory => TextFault::NoMemory,
        }
    }
}

impl From<base::NoMemory> for TextFault {
    ghost use Rattle.std.specs.Prelude.{◌≡◌};

    ghost from_gives = { λ _ f. f ≡ fault.NoMemory };

    fn from(_: base::NoMemory) -> Self {
        TextFault::NoMemory
    }
}

impl<T: Drop> From<AllocFailed<T>> for TextFault {
    ghost use Rattle.std.specs.Prelude.{◌≡◌};

    ghost from_gives = { λ _ f. f ≡ fault.NoMemory };

    fn from(_: AllocFailed<T>) -> Self {
        TextFault::NoMemory
    }
}

impl Told for TextFault {
    ghost told = { text_words };

    fn write(self, to: &mut Bytes) -> Result<(), base::NoMemory> {
        match self {
            TextFault::BadByte { at } => numbered(b"BadByte ", at, to),
            TextFault::BigNumber { at } => numbered(b"BigNumber ", at, to),
            TextFault::Syntax { unit } => numbered(b"Syntax ", unit, to),
            TextFault::NoMemory => to.extend(b"NoMemory"),
        }
    }
}
