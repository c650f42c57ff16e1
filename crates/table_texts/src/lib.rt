//! What runs print of tables, split at the lines of their names.
#![tactic(auto)]

mod split;

pub use split::{NoSplit, split_tables};
