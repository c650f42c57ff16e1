//! CQL programs as trees: what they mean, which are accepted and what the first fault of another is, their plans, and what follows
//! from that.
#![tactic(auto)]

mod fault;
pub mod laws;

pub use fault::{Fault, Refusal};
