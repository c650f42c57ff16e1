// The kinds of tables.

/// What a table makes of the rows that are added to it: three of the aggregators of Sawzall (Pike and others, 2005).
/// A row is the keys, then the value, and for `Maximum` then its weight. There are at most 8 keys.
#[derive(Clone, Copy, PartialEq, Eq)]
pub enum TableKind {
    /// For each key the sum of its values, modulo 2^64.
    Sum { keys: u32 },
    /// All rows.
    Collection { keys: u32 },
    /// For each key the rows with the greatest weights, at most `best`, which is from 1 to 1,000,000.
    Maximum { best: u32, keys: u32 },
}
