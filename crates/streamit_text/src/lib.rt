//! StreamIt programs as they are written: their tree, their grammar, and the code that reads them from tokens.
#![tactic(auto)]

mod filter;
pub mod laws;
mod leaves;
mod names;
mod program;
mod read;
mod rounds;
mod statement;
mod still;
mod term;
mod tree;
mod unit;

pub use filter::fields;
pub use leaves::{Leaves, Plain, pop};
pub use names::{name, own, parens};
pub use program::{Adds, Body, RoundRobin, Split, SplitJoin, StreamitProgram, Unit};
pub use read::read_streamit;
pub use statement::{ForHead, Upper, round_head};
pub use still::{is_still, stay};
pub use term::{Sign, StreamitGrammar};
pub use tree::{Block, Expr, FilterTree, Rates, Statement, Until, WorkTree};
