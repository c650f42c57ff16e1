//! Scripts: rewrites of a plan, read from a text and applied one after another.
#![tactic(auto)]

mod apply;
mod fault;
pub mod laws;
mod read;
mod step;

pub use apply::apply_script;
pub use fault::ScriptFault;
