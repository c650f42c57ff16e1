// How far a file is read.

/// How far a file is read.
#[derive(Clone, Copy, Debug, PartialEq, Eq)]
pub struct Extent {
    /// How many bytes.
    pub at: u64,
    /// How many records they have, with the header.
    pub records: u64,
}
