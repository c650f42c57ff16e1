//! Kernels on rows: bodies of work code, and the splitters and joiners, also of relations that come
//! as changes.
#![tactic(auto)]

mod body;
mod code;
mod collect;
mod even;
mod filter;
mod joined;
mod joining;
mod kernel;
pub mod laws;
mod line;
mod queue;
mod turn;
mod unpack;

pub use body::run_kept;
pub use collect::CollectState;
pub use even::EvenRows;
pub use filter::FilterState;
pub use kernel::{CodeKernel, Collect, Deal, Filter, First, Unpack};
pub use line::ItemLine;
pub use turn::DealState;
pub use unpack::UnpackState;
