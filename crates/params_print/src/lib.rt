//! Plain StreamIt written out from programs with parameters: the values of constants, and the text
//! of one instance of a stream under values.
#![tactic(auto)]

mod bindings;
mod constant;
mod expression;
mod filter;
mod instance;
mod round;
mod statement;
mod token;
mod unit;

pub use bindings::Bindings;
pub use constant::{count, value};
pub use instance::Instance;
pub use unit::{print_filter, print_pipeline, print_split_join};
