//! The top call of river: all that the program does, over a shelf and two sinks that are handed in.
#![tactic(auto)]

mod langs;
mod road;
mod runs;
mod tell;
mod top;

pub use top::{river, river_now};
