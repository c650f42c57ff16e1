//! Firings of kernels and of operators, what they keep, and the laws of Brooklet's machine.
#![tactic(auto)]

mod bag;
mod count;
mod counts;
mod emit;
mod firing;
mod initial;
mod join;
mod joining;
mod kinds;
pub mod laws;
mod leaf;
mod outcome;
mod parts;
mod single;
mod start;
mod state;
mod step;

pub use count::next_count;
pub use emit::{Emit, RowLists, Spare, clear_all};
pub use firing::{blank_for, fire};
pub use initial::{first_queues, first_tables};
pub use kinds::{has_type, item_fits};
pub use outcome::Outcome;
pub use parts::{Lines, MachineState, Sizes, Tables};
pub use start::{first_states, states_of};
pub use state::{State, States};
pub use step::{fire_op, fire_values};
