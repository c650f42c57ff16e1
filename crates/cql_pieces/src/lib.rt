//! CQL over files of any size, in pieces by time.
#![tactic(auto)]

mod bound;
mod cut;
mod kept;
pub mod laws;

pub use bound::{kind_moves, window_moves};
pub use cut::cut_text;
pub use kept::keep_lines;
