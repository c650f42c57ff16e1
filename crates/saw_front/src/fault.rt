// Why a text is no program, and what is told of it.
ghost use Rattle.saw_front.specs.Words.{saw_words};

use river_base::{Bytes, NoMemory};
use text_forms::{TextFault, Told, numbered};

/// Why a text is no program. The unit, from 1, is the one in whose reading the fault comes.
#[derive(Clone, Copy)]
pub enum SawFault {
    /// The text is not read, or there was no memory.
    Text(TextFault),
    /// A name that is no local, or none of a table, that is known where it stands.
    UnknownName { unit: u32 },
    /// A name that is known is declared again.
    NameTwice { unit: u32 },
    /// An emit with another number of indexes than its table has, or with a weight where there is none, or none where
    /// there is one.
    Shape { unit: u32 },
    /// A number above its limit.
    Limit { unit: u32 },
}

impl From<TextFault> for SawFault {
    ghost use Rattle.std.specs.Prelude.{◌≡◌};
    ghost use Rattle.saw_front.specs.declared.fault.SawFault.TheVariants as fault;

    ghost from_gives = { λ text f. f ≡ fault.Text text };

    fn from(text: TextFault) -> Self {
        SawFault::Text(text)
    }
}

impl Told for SawFault {
    ghost told = { saw_words };

    fn write(self, to: &mut Bytes) -> Result<(), NoMemory> {
        match self {
            SawFault::Text(text) => text.write(to),
            SawFault::UnknownName { unit } => numbered(b"UnknownName ", unit, to),
            SawFault::NameTwice { unit } => numbered(b"NameTwice ", unit, to),
            SawFault::Shape { unit } => numbered(b"Shape ", unit, to),
            SawFault::Limit { unit } => numbered(b"Limit ", unit, to),
        }
    }
}
