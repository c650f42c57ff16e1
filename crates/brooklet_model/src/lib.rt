//! The firings of kernels, the histories of a plan and Brooklet's machine: definitions, and what follows from them.
#![tactic(auto)]

pub mod laws;
