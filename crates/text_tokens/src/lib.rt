//! Texts: the tokens of all the languages, and the units of a text.
#![tactic(auto)]

mod byte;
mod cut;
mod fault;
pub mod laws;
mod lexer;
mod piece;
mod sign;
mod token;
mod tokens;
mod unit;

pub use cut::UnitList;
pub use fault::LexFault;
pub use lexer::lex;
pub use sign::Symbol;
pub use token::{Lexeme, Token};
pub use tokens::Tokens;
pub use unit::units;
