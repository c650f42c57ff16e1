//! CQL programs (Arasu, Babu, Widom, 2006): a text becomes its tree and its plan, or tells its first fault.
#![tactic(auto)]

mod compile;
mod fault;
pub mod laws;

pub use compile::compile_cql;
pub use fault::CqlFault;
