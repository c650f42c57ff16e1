//! Brooklet's machine, and the run of a plan on one thread.
#![tactic(auto)]

mod add;
mod ending;
mod inputs;
mod machine;
mod opening;
mod run;
mod turn;

pub use inputs::{Inputs, fits};
pub use machine::Machine;
pub use run::{run_lines, run_one};
