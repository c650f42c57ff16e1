// Why a program is refused.

/// Why a program is refused.
#[derive(Clone, Copy)]
pub enum Fault {
    /// An item names no stream that is declared above.
    UnknownStream,
    /// A field that is in no item, or whose item is not there.
    UnknownField,
    /// A field that stands more than once in the items that it may be of.
    AmbiguousField,
    /// A stream or query that is declared again, a field that stands twice in a stream, or two items of one name.
    NameTwice,
    /// More than 8 registered streams, 16 fields, 16 columns or 4 items; a product that is wider than 16; `Rows` of 0 or above
    /// 1,000,000; or a plan that exceeds a limit of plans.
    Limit,
}

/// The fault that comes first in the order of reading, and its unit, from 1.
#[derive(Clone, Copy)]
pub struct Refusal {
    pub unit: usize,
    pub fault: Fault,
}
