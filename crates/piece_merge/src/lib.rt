//! What runs printed of tables is merged: the rows of each section are added to a table, and the tables are printed.
#![tactic(auto)]

mod fault;
pub mod laws;
mod merger;
mod printing;
mod record;
mod section;

pub use fault::NoMerge;
pub use merger::Merger;
