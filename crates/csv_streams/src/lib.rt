//! Files of numbers as CSV, and the printed text of outputs.
#![tactic(auto)]

mod fault;
mod instant;
pub mod laws;
mod number;
mod outcome;
mod record;
mod rows;
mod timed;

pub use fault::InFault;
pub use instant::{add_stamps, instants, spread};
pub use number::read_number;
pub use outcome::{print_head, print_outcome, print_outputs, print_values};
pub use rows::{MAX_ROWS, read_even, read_rows};
pub use timed::read_timed;
