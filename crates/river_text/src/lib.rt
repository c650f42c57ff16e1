//! River text: plans as they are written down, and how they are read.
#![tactic(auto)]

mod body;
mod decl;
mod entry;
mod front;
mod kernel;
pub mod laws;
mod number;
mod op;
mod port;
mod read;
mod river_fault;
mod term;

pub use body::body as braced_body;
pub use decl::BRACKETS;
pub use entry::RiverText;
pub use front::{RiverPlan, compile_river};
pub use number::{number as round_number, pair as round_pair, signed};
pub use port::{Ports as TwoLists, both_lists};
pub use read::read_river;
pub use river_fault::RiverFault;
