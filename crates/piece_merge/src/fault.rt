// Why a text is not added.
ghost use Rattle.std.specs.Prelude.{◌≡◌};

use river_base::NoMemory;
use table_texts::NoSplit;

/// Why what a run printed is not added.
#[derive(Clone, Copy, Debug, PartialEq, Eq)]
pub enum NoMerge {
    /// It is not what a run prints of these tables.
    Other,
    /// There was no memory.
    NoMemory,
}

impl From<NoMemory> for NoMerge {
    ghost use Rattle.piece_merge.specs.declared.fault.NoMerge.TheVariants as why;

    ghost from_gives = { λ _ e. e ≡ why.NoMemory };

    fn from(_fault: NoMemory) -> Self {
        NoMerge::NoMemory
    }
}

impl From<NoSplit> for NoMerge {
    ghost use Rattle.piece_merge.specs.Faults.{of_split};

    ghost from_gives = { λ fault e. e ≡ of_split fault };

    fn from(fault: NoSplit) -> Self {
        match fault {
            NoSplit::Other => NoMerge::Other,
            NoSplit::NoMemory => NoMerge::NoMemory,
        }
    }
}
