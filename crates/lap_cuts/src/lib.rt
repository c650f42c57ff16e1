//! A CSV file is cut into pieces that overlap, each of as many records but the last, as it is read.
#![tactic(auto)]

mod files;
mod laps;
pub mod laws;

pub use files::cut_laps;
pub use laps::Laps;
