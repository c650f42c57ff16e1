// What is wrong with a file of rows, and what is told of it.
ghost use Rattle.std.specs.Prelude.{◌≡◌, ◌++◌, codes, IfOk};
ghost use Rattle.std.specs.Fmt.{decimal};
ghost use Rattle.csv_streams.specs.FaultWords.{in_words};

use river_base::{Bytes, NoMemory};
use std::alloc::Global;

/// Why a file is no file of rows. Records and fields are counted from 1, and a header is a record.
#[derive(Clone, Copy)]
pub enum InFault {
    /// Record number `rec` has another number of fields.
    Width { rec: u32 },
    /// Field number `field` of record number `rec` is no number.
    NotNumber { rec: u32, field: u32 },
    /// The timestamp of record number `rec` is below that of the record before it.
    Backwards { rec: u32 },
    /// The timestamp of record number `rec` is below 0.
    NegativeTime { rec: u32 },
    /// There are more than 100,000 records, not counting a header.
    TooMany,
    /// There was no memory.
    NoMemory,
}

impl InFault {
    /// What is told of it: the name of the fault, and the numbers of the record and the field.
    pub fn words(self, alloc: Global) -> Result<Bytes, NoMemory>
        ensures { IfOk result (λ text. text ≡ in_words self) }
    {
        match self {
            InFault::Width { rec } => faulty_record(alloc, b"I1 ", rec),
            InFault::NotNumber { rec, field } => not_number(alloc, rec, field),
            InFault::Backwards { rec } => faulty_record(alloc, b"I3 ", rec),
            InFault::NegativeTime { rec } => faulty_record(alloc, b"I4 ", rec),
            InFault::TooMany => Bytes::from_slice(alloc, b"I5"),
            InFault::NoMemory => Bytes::from_slice(alloc, b"NoMemory"),
        }
    }
}

// A record is at fault.
fn faulty_record(alloc: Global, fault: &[u8], rec: u32) -> Result<Bytes, NoMemory>
    ensures { IfOk result (λ text. text ≡ fault.now ++ decimal rec) }
{
    let mut words = Bytes::from_slice(alloc, fault)?;
    let digits = format!(in alloc; "{rec}")?;
    words.extend(digits.as_bytes())?;
    Ok(words)
}

// A field of a record is no number.
fn not_number(alloc: Global, rec: u32, field: u32) -> Result<Bytes, NoMemory>
    ensures { IfOk result (λ text. text ≡ codes "I2 " ++ (decimal rec ++ (codes " " ++ decimal field))) }
{
    let words = format!(in alloc; "I2 {rec} {field}")?;
    Bytes::from_slice(alloc, words.as_bytes())
}

impl From<NoMemory> for InFault {
    ghost use Rattle.csv_streams.specs.declared.fault.InFault.TheVariants as fault;

    ghost from_gives = { λ _ e. e ≡ fault.NoMemory };

    fn from(_: NoMemory) -> Self {
        InFault::NoMemory
    }
}
