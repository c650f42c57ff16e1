// Why the cases cannot be gone through.
use river_base::NoMemory;
use std::io;

/// What is wrong with a line, or with the machine.
#[derive(Clone, Copy)]
pub(crate) enum CaseFault {
    /// The line is none that is known, or stands where it may not.
    Line,
    /// There was no memory.
    NoMemory,
    /// The standard output failed.
    Output,
}

impl From<NoMemory> for CaseFault {
    fn from(_: NoMemory) -> Self {
        CaseFault::NoMemory
    }
}

impl From<io::Error> for CaseFault {
    fn from(_: io::Error) -> Self {
        CaseFault::Output
    }
}
