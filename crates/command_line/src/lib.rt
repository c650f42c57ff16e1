//! The words of the command line, and the command that they ask for.
#![tactic(auto)]

mod bounds;
mod command;
pub mod laws;
mod number;
mod phrases;
mod word_set;
mod words;

pub use bounds::{Capacity, Workers};
pub use command::{Command, FreeWords, InWord, InWords, Lang, RunBy, RunWords, WordFault};
pub use words::read_words;
