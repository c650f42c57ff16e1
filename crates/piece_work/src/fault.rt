// Why a step was not done.
ghost use Rattle.std.specs.Prelude.{◌≡◌};

use river_base::NoMemory;
use river_outside::Failed;

/// Why a step was not done.
#[derive(Clone, Copy, Debug, PartialEq, Eq)]
pub enum WorkFault {
    /// There is no such file.
    Absent,
    /// A file could not be read.
    Unread,
    /// A file has more bytes than are read, or a piece of it would have more than a piece may have.
    Large,
    /// There was no memory.
    NoMemory,
    /// What was to be written was not.
    Unwritten,
    /// The program is refused.
    Program,
    /// A file is not what a run of the program prints, or has fewer bytes than were read of it
    /// before.
    Other,
}

impl From<NoMemory> for WorkFault {
    ghost use Rattle.piece_work.specs.declared.fault.WorkFault.TheVariants as why;

    ghost from_gives = { λ _ f. f ≡ why.NoMemory };

    fn from(_fault: NoMemory) -> Self {
        WorkFault::NoMemory
    }
}

impl From<Failed> for WorkFault {
    ghost use Rattle.piece_work.specs.declared.fault.WorkFault.TheVariants as why;

    ghost from_gives = { λ _ f. f ≡ why.Unwritten };

    fn from(_fault: Failed) -> Self {
        WorkFault::Unwritten
    }
}
