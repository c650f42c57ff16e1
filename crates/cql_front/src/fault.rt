// Why a text is no program, and what is told of it.
ghost use Rattle.cql_front.specs.Words.{cql_words};

use river_base::{Bytes, NoMemory};
use text_forms::{TextFault, Told, numbered};

/// Why a text is no program. The unit, from 1, is the one in whose reading the fault comes.
#[derive(Clone, Copy)]
pub enum CqlFault {
    /// The text is not read, or there was no memory.
    Text(TextFault),
    /// An item names no stream that is declared above.
    UnknownStream { unit: u32 },
    /// A field that is in no item, or whose item is not there.
    UnknownField { unit: u32 },
    /// A field that stands more than once in the items that it may be of.
    AmbiguousField { unit: u32 },
    /// A stream or query that is declared again, a field that stands twice in a stream, or two items of one name.
    NameTwice { unit: u32 },
    /// More than 8 registered streams, 16 fields, 16 columns or 4 items; a product that is wider than 16; `Rows` of 0 or above
    /// 1,000,000; or a plan that exceeds a limit of plans, which is told at the last unit.
    Limit { unit: u32 },
}

impl From<TextFault> for CqlFault {
    ghost use Rattle.std.specs.Prelude.{◌≡◌};
    ghost use Rattle.cql_front.specs.declared.fault.CqlFault.TheVariants as fault;

    ghost from_gives = { λ text f. f ≡ fault.Text text };

    fn from(text: TextFault) -> Self {
        CqlFault::Text(text)
    }
}

impl Told for CqlFault {
    ghost told = { cql_words };

    fn write(self, to: &mut Bytes) -> Result<(), NoMemory> {
        match self {
            CqlFault::Text(fault) => fault.write(to),
            CqlFault::UnknownStream { unit } => numbered(b"UnknownStream ", unit, to),
            CqlFault::UnknownField { unit } => numbered(b"UnknownField ", unit, to),
            CqlFault::AmbiguousField { unit } => numbered(b"AmbiguousField ", unit, to),
            CqlFault::NameTwice { unit } => numbered(b"NameTwice ", unit, to),
            CqlFault::Limit { unit } => numbered(b"Limit ", unit, to),
        }
    }
}
