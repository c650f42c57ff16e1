//! What CQL programs mean by the definition of their language, by plain evaluation of their trees.
#![tactic(auto)]

mod answer;
mod bag;
mod content;
mod kept;
pub mod laws;
mod names;
mod program;
mod value;
mod window;

pub use program::mean_cql;
