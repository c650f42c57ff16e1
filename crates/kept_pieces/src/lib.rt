//! The laws of what is kept of a file that grows.
#![tactic(auto)]

pub mod laws;
