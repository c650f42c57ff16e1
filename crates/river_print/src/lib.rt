//! Prints plans as River text, with their expressions and statements.
#![tactic(auto)]

mod items;
mod kernel;
pub mod laws;
mod plan;
mod print;
mod printing;
mod ranges;

pub use plan::{print_raw, print_river};
pub use print::print_expr;
pub use printing::print_code;
