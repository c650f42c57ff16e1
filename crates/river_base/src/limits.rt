//! The numbers that limit programs and plans of every language.

/// The most operators of a plan.
pub const MOST_OPERATORS: u32 = 256;

/// The most variables of a plan, tables included, and the most cells of a free program.
pub const MOST_VARIABLES: u32 = 256;

/// The most variables in the code of one operator.
pub const MOST_SLOTS: u32 = 256;

/// The most statements in the code of one operator.
pub const MOST_STATEMENTS: u32 = 16_384;

/// The most items that a firing takes or gives at a queue: so high may a rate, a weight and a bound of a loop be.
pub const MOST_ITEMS: u32 = 65_536;

/// The most items that a queue may be declared to hold.
pub const MOST_CAPACITY: u32 = 65_536;

/// The most rows that a window or a maximum keeps.
pub const MOST_KEPT: u32 = 1_000_000;
