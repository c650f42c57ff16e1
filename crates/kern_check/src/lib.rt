//! Whether a kernel fits its ports and its variables, and which of its numbers are above a limit.
#![tactic(auto)]

mod above;
mod fitting;
mod formed;
mod inference;
mod ports;

pub use above::{body_above, first_above, nesting, one_above, two_above};
pub use fitting::fits;
pub use formed::are_formed_stmts;
