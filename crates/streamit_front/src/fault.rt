// Why a text is no program, and what is told of it.
ghost use Rattle.std.specs.Prelude.{◌≡◌, ◌++◌, codes, OnOk};
ghost use Rattle.std.specs.Fmt.{decimal, signed_decimal};
ghost use Rattle.streamit_front.specs.Words.{streamit_words};

use river_base::{Bytes, NoMemory};
use text_forms::{TextFault, Told, numbered};

/// Why a text is no program. The unit, from 1, is the one in whose reading the fault comes.
#[derive(Clone, Copy)]
pub enum StreamitFault {
    /// The text is not read, or there was no memory.
    Text(TextFault),
    /// A name that is not known where it stands.
    UnknownName {
        unit: u32,
    },
    /// A name that is known is declared again.
    NameTwice {
        unit: u32,
    },
    /// Another rate than declared; or the rate of `peek` below the rate of `pop`.
    Rates {
        unit: u32,
        declared: u32,
        counted: u32,
    },
    /// An item that a firing does not look at.
    PeekRange {
        unit: u32,
        index: i64,
        peek: u32,
    },
    /// A bound or an index that is no constant, or a loop's variable that is set.
    NotConstant {
        unit: u32,
    },
    /// The arms of an `if` pop or push another number of items.
    BranchRates {
        unit: u32,
    },
    /// A number above its limit.
    Limit {
        unit: u32,
    },
    /// A weight that is 0, or another number of weights than of branches.
    Weights {
        unit: u32,
    },
}

impl From<TextFault> for StreamitFault {
    ghost use Rattle.std.specs.Prelude.{◌≡◌};
    ghost use Rattle.streamit_front.specs.declared.fault.StreamitFault.TheVariants as fault;

    ghost from_gives = { λ text f. f ≡ fault.Text text };

    fn from(text: TextFault) -> Self {
        StreamitFault::Text(text)
    }
}

impl Told for StreamitFault {
    ghost told = { streamit_words };

    fn write(self, to: &mut Bytes) -> Result<(), NoMemory> {
        match self {
            StreamitFault::Text(fault) => fault.write(to),
            StreamitFault::UnknownName { unit } => numbered(b"UnknownName ", unit, to),
            StreamitFault::NameTwice { unit } => numbered(b"NameTwice ", unit, to),
            StreamitFault::Rates {
                unit,
                declared,
                counted,
            } => rates(unit, declared, counted, to),
            StreamitFault::PeekRange { unit, index, peek } => { peek_range(unit, index, peek, to) }
            StreamitFault::NotConstant { unit } => numbered(b"NotConstant ", unit, to),
            StreamitFault::BranchRates { unit } => numbered(b"BranchRates ", unit, to),
            StreamitFault::Limit { unit } => numbered(b"Limit ", unit, to),
            StreamitFault::Weights { unit } => numbered(b"Weights ", unit, to),
        }
    }
}

// Appends the unit, and the rates that are declared and counted.
#[tactic(auto, using(text_tokens::proofs::Joined::joins))]
fn rates(unit: u32, declared: u32, counted: u32, to: &mut Bytes) -> Result<(), NoMemory>
    ensures { OnOk result (to.new ≡ to.old ++ ((codes "Rates " ++ decimal unit) ++ ((codes " " ++ decimal declared) ++ (codes " " ++ decimal counted)))) }
{
    numbered(b"Rates ", unit, to)?;
    numbered(b" ", declared, to)?;
    numbered(b" ", counted, to)
}

// Appends the unit, the index, and the rate of `peek`.
#[tactic(auto, using(text_tokens::proofs::Joined::joins))]
fn peek_range(unit: u32, index: i64, peek: u32, to: &mut Bytes) -> Result<(), NoMemory>
    ensures { OnOk result (to.new ≡ to.old ++ ((codes "PeekRange " ++ decimal unit) ++ ((codes " " ++ signed_decimal index) ++ (codes " " ++ decimal peek)))) }
{
    numbered(b"PeekRange ", unit, to)?;
    to.push(b' ')?;
    to.put_number(index)?;
    numbered(b" ", peek, to)
}
