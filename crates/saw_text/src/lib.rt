//! Sawzall programs as they are written: the grammar, and the code that reads programs from texts.
#![tactic(auto)]

pub mod laws;
mod names;
mod read;
mod statement;
mod table;
mod term;
mod tree;
mod unit;

pub use read::read_sawzall;
pub use tree::{Block, Expr, Field, Kind, SawProgram, Statement, Table, Unit};
