// The kernels on bags of rows, as data.

/// Which rows of a stream stand in the relation at an instant: the windows of CQL (Arasu, Babu, Widom, 2006).
#[derive(Clone, Copy)]
pub enum Window {
    /// The rows of the instant: `[Now]`.
    Now,
    /// The rows of the instants that are at most so much older: `[Range T]`. The number may have any value.
    Range(i64),
    /// All rows so far: `[Range Unbounded]`.
    Unbounded,
    /// The last rows, at least 1 and at most 1,000,000: `[Rows N]`.
    Latest(u32),
}

/// How a relation becomes a stream: the operators of CQL of the same names.
#[derive(Clone, Copy)]
pub enum Streamer {
    /// The rows that came since the instant before.
    Istream,
    /// The rows that went since the instant before.
    Dstream,
    /// All rows of the relation.
    Rstream,
}

/// Joins each row of one relation with each row of another.
#[derive(Clone, Copy)]
pub struct Cross;
