//! What programs with parameters mean, the plain programs that are written out for them, and what follows from that.
#![tactic(auto)]

mod fault;
pub mod laws;

pub use fault::{Fault, Refusal};
