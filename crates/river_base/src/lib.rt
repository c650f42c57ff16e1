//! What all crates of river speak of: numbers, rows, names, items and the types of queues, lists,
//! want of memory, and the gate of a firing.
#![tactic(auto)]

mod duplicate;
mod gate;
mod item;
mod kind;
pub mod laws;
mod limits;
mod listed;
mod memory;
mod name;
mod number;
mod row;
mod values;

pub use duplicate::Duplicate;
pub use gate::{Gate, NoGate};
pub use item::{Batch, Change, Flat, Flats, Item, Items, Rows, TimedFiles, TimedRows};
pub use kind::{FlatType, QueueType};
pub use limits::{
    MOST_CAPACITY, MOST_ITEMS, MOST_KEPT, MOST_OPERATORS, MOST_SLOTS, MOST_STATEMENTS,
    MOST_VARIABLES,
};
pub use listed::{Bytes, Listed, Numbers, Text};
pub use memory::NoMemory;
pub use name::{MAX_NAME, Name, is_letter, is_word};
pub use number::{add, count_of, mul, quot, rem, sub};
pub use row::{MAX_ROW, Row, compare};
pub use values::Values;
