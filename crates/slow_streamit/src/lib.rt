//! What StreamIt programs mean by the definition of their language, by plain evaluation of their trees.
#![tactic(auto)]

mod filter;
mod firing;
mod program;
mod round;

pub use program::mean_streamit;
