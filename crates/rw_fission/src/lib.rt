//! Fission: an operator becomes a splitter, replicas and a joiner.
#![tactic(auto)]

mod copies;
mod form;
pub mod laws;
mod lists;
mod made;
mod split;
mod step;

pub use step::fission;
