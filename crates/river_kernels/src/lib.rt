//! The kernels of operators as data, their parts, and when they are well formed.
#![tactic(auto)]

mod kernel;
mod limit;
mod shape;
mod types;

pub use kernel::Kernel;
pub use limit::Limit;
pub use shape::Shape;
pub use types::{Types, VarKind};
