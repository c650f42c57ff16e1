//! StreamIt programs: a text becomes its tree and its plan, or tells its first fault.
#![tactic(auto)]

mod compile;
mod fault;
pub mod laws;

pub use compile::compile_streamit;
pub use fault::StreamitFault;
