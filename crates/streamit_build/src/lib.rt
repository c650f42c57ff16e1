//! Judges the units of StreamIt programs, and builds their plans: the operators are numbered in the order in which they are made.
#![tactic(auto)]

mod builder;
mod judge;
mod names;
mod operators;
mod planning;
mod rounds;
mod streams;

use builder::{Declared, Made};
pub use planning::{Refused, plan};
use streams::{Entry, Known};
