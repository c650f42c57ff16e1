//! StreamIt programs with parameters: a text becomes its tree, the text of its plain program and its plan, or tells its first fault.
#![tactic(auto)]

mod body;
mod bounds;
mod compile;
mod elaboration;
mod fault;
mod find;
pub mod laws;
mod make;
mod making;
mod program;
mod ranges;
mod sizes;
mod span;
mod write;

pub use compile::compile_params;
pub use elaboration::elaborate;
pub use fault::ParamFault;
pub use make::{Written, made};
use making::Making;
pub use program::Elaborated;
