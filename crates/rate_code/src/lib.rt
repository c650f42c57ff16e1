//! Periods of streams, reckoned with numbers of 64 bits.
#![tactic(auto)]

pub mod cause;
pub mod filters;
pub mod laws;
pub mod overlap;
pub mod queues;
pub mod rate;
pub mod walk;
