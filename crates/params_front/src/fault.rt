// Why a text is no program with parameters, and what is told of it.
ghost use Rattle.std.specs.Prelude.{◌≡◌, ◌++◌, codes, OnOk};
ghost use Rattle.std.specs.Fmt.{decimal};
ghost use Rattle.streamit_front.specs.Words.{streamit_words};
ghost use Rattle.params_front.specs.Words.{params_words};

use river_base::{Bytes, NoMemory};
use streamit_front::StreamitFault;
use text_forms::{TextFault, Told, numbered};

/// Why a text is no program with parameters. The unit, from 1, is the one in whose reading the fault
/// comes, or of which an instance was to be made.
#[derive(Clone, Copy)]
pub enum ParamFault {
    /// The text is not read, or there was no memory.
    Text(TextFault),
    /// `add` names no stream declared above, or a constant has a name that is not known there.
    UnknownName { unit: u32 },
    /// A name that is known is declared again.
    NameTwice { unit: u32 },
    /// An `add` has another number of arguments than the stream has parameters.
    Arity { unit: u32 },
    /// A parameter is assigned.
    NotConstant { unit: u32 },
    /// The last stream has parameters.
    Top { unit: u32 },
    /// A rate, a weight or a bound that is below 0 or above 65,536.
    Range { unit: u32 },
    /// A pipeline or a split-join without children.
    Empty { unit: u32 },
    /// Too many instances, too deep or with too long texts, or too many turns.
    Budget { unit: u32 },
    /// The plain program is refused, in an instance of this unit.
    Inner { unit: u32, fault: StreamitFault },
}

impl From<TextFault> for ParamFault {
    ghost use Rattle.std.specs.Prelude.{◌≡◌};
    ghost use Rattle.params_front.specs.declared.fault.ParamFault.TheVariants as fault;

    ghost from_gives = { λ text f. f ≡ fault.Text text };

    fn from(text: TextFault) -> Self {
        ParamFault::Text(text)
    }
}

impl From<NoMemory> for ParamFault {
    ghost use Rattle.std.specs.Prelude.{◌≡◌};
    ghost use Rattle.text_forms.specs.declared.text_fault.TextFault.TheVariants as text_fault;
    ghost use Rattle.params_front.specs.declared.fault.ParamFault.TheVariants as fault;

    ghost from_gives = { λ _ f. f ≡ fault.Text text_fault.NoMemory };

    fn from(_: NoMemory) -> Self {
        ParamFault::Text(TextFault::NoMemory)
    }
}

impl Told for ParamFault {
    ghost told = { params_words };

    fn write(self, to: &mut Bytes) -> Result<(), NoMemory> {
        match self {
            ParamFault::Text(fault) => fault.write(to),
            ParamFault::UnknownName { unit } => numbered(b"UnknownName ", unit, to),
            ParamFault::NameTwice { unit } => numbered(b"NameTwice ", unit, to),
            ParamFault::Arity { unit } => numbered(b"Arity ", unit, to),
            ParamFault::NotConstant { unit } => numbered(b"NotConstant ", unit, to),
            ParamFault::Top { unit } => numbered(b"Top ", unit, to),
            ParamFault::Range { unit } => numbered(b"Range ", unit, to),
            ParamFault::Empty { unit } => numbered(b"Empty ", unit, to),
            ParamFault::Budget { unit } => numbered(b"Budget ", unit, to),
            ParamFault::Inner { unit, fault } => inner(unit, fault, to),
        }
    }
}

// Appends the unit, and what is told of the plain program.
#[tactic(auto, using(text_tokens::proofs::Joined::joins))]
fn inner(unit: u32, fault: StreamitFault, to: &mut Bytes) -> Result<(), NoMemory>
    ensures { OnOk result (to.new ≡ to.old ++ ((codes "Inner " ++ decimal unit) ++ (codes " " ++ streamit_words fault))) }
{
    numbered(b"Inner ", unit, to)?;
    to.extend(b" ")?;
    fault.write(to)
}
