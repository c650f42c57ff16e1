//! The lines that runs on pieces print, of which some are kept.
#![tactic(auto)]

mod lines;

pub use lines::{all_lines, some_lines};
