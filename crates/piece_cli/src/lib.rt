//! The top call of pieces: what the program does, over a shelf, a work folder, a folder of what is kept, and two sinks that are
//! handed in.
#![tactic(auto)]

mod command;
pub mod laws;
mod number;
mod tell;
mod top;

pub use command::{Command, Keeping, command_of, folder_of, keep_of};
pub use top::pieces;
