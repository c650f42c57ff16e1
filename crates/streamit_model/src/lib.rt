//! StreamIt programs as trees: what they mean, their plans, whether they are accepted, and what follows from that.
#![tactic(auto)]

mod fault;
pub mod laws;

pub use fault::{Fault, Refusal};
