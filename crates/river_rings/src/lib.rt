//! Bounded queues between two threads: an end that sends and an end that takes, which are seen by what was sent and received.
#![tactic(auto)]

mod ends;
mod lots;
mod rows;

pub use ends::{Feed, Take, beside, ring};
pub use rows::{RowFeed, RowTake, ring_of_rows, rows_beside};
