//! Fusion of a writer with its reader, and selections that are hoisted.
#![tactic(auto)]

mod exprs;
mod fusing;
mod hoisting;
mod kinds;
pub mod laws;
mod names;
mod ops;
mod past;

pub use fusing::fuse;
pub use hoisting::hoist;
