//! Nets of workers: the tasks of a plan with the rings between them, opened, moved, split, joined and finished.
#![tactic(auto)]

mod closing;
mod frame;
mod joining;
pub mod laws;
mod net;
mod one;
mod opening;
mod pace;
mod running;
mod sorting;
mod splitting;

pub use closing::{Logs, Ran};
pub use frame::{Bundles, Frame};
pub use net::Net;
pub use running::run_plan;
pub use splitting::SplitFault;
