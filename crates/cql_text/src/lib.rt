//! CQL programs as syntax trees (Arasu, Babu, Widom, 2006), and how they are read.
#![tactic(auto)]

mod column;
mod keywords;
pub mod laws;
mod operator;
mod read;
mod tree;
mod unit;
mod value;
mod window;

pub use operator::Operator;
pub use read::read_cql;
pub use tree::{
    Column, Columns, CqlProgram, Kind, Numeral, Query, Scalar, Source, Stream, TimeUnit, Unit,
    Window,
};
