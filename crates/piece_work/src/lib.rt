//! Programs in pieces: a file is read, and is cut into pieces as it is read.
#![tactic(auto)]

mod cutting;
mod fault;
pub mod laws;
mod reading;
mod windows;

pub use cutting::{count_records, cut_shelf, new_block};
pub use fault::WorkFault;
pub use reading::read_file;
pub use windows::{BLOCK, fill, let_go};
