// Why a run has no output.
ghost use Rattle.std.specs.Prelude.{◌≡◌};

use river_base::{Bytes, NoMemory};

/// Why a run has no output.
#[derive(Drop)]
pub enum Stop {
    /// The words are no sentence.
    Usage,
    /// It is refused, with this text.
    Refused(Bytes),
    /// A file could not be read, with this text.
    Failed(Bytes),
    /// A file is not there, with this text.
    Absent(Bytes),
    /// There was no memory.
    NoMemory,
}

impl From<NoMemory> for Stop {
    ghost use Rattle.river_outside.specs.declared.stop.Stop.TheVariants as stop;

    ghost from_gives = { λ _ e. e ≡ stop.NoMemory };

    fn from(_: NoMemory) -> Stop {
        Stop::NoMemory
    }
}
