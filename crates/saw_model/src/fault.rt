// Why a program is refused.

/// Why a program is refused.
#[derive(Clone, Copy)]
pub enum Fault {
    /// A name that is no local, or none of a table, that is known where it stands.
    UnknownName,
    /// A name that is known is declared again.
    NameTwice,
    /// An emit with another number of indexes than its table has, or with a weight where there is none, or none where
    /// there is one.
    Shape,
    /// A number above its limit.
    Limit,
}

/// The fault that comes first in the order of reading, and its unit, from 1.
#[derive(Clone, Copy)]
pub struct Refusal {
    pub unit: usize,
    pub fault: Fault,
}
