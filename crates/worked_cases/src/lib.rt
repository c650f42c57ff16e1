//! Worked cases: what is run over memory, and what it is to give. They are read from lines, run by what is handed in, and
//! judged. A tool of the tests: it promises nothing.
#![tactic(auto)]

mod case;
mod content;
mod fault;
mod layout;
mod lines;
mod reader;
mod report;
mod run;

pub use lines::go_through;
pub use run::Runner;
