// Why a program is refused.

/// Why a program is refused.
#[derive(Clone, Copy)]
pub enum Fault {
    /// A name that is not known where it stands.
    UnknownName,
    /// A name that is known is declared again.
    NameTwice,
    /// Another rate than declared; or the rate of `peek` below the rate of `pop`.
    Rates { declared: u32, counted: u32 },
    /// An item that a firing does not look at.
    PeekRange { index: i64, peek: u32 },
    /// A bound or an index that is no constant, or a loop's variable that is set.
    NotConstant,
    /// The arms of an `if` pop or push another number of items.
    BranchRates,
    /// A number above its limit.
    Limit,
    /// A weight that is 0, or another number of weights than of branches.
    Weights,
}

/// The fault that comes first in the order of reading, and its unit, from 1.
#[derive(Clone, Copy)]
pub struct Refusal {
    pub unit: u32,
    pub fault: Fault,
}
