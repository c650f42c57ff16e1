//! How pieces of the input of a StreamIt program overlap, by its text.
#![tactic(auto)]

mod no_laps;
mod spot;

pub use no_laps::NoLaps;
pub use spot::overlap_in;
