//! Statements, blocks and expressions of any language: their grammar with holes, one reader, and
//! one proof that it is exact.
#![tactic(auto)]

mod blocks;
mod exprs;
mod opening;
mod sign;
mod terms;

pub use blocks::{Blocks, block, rest};
pub use exprs::{ended, first_value, place, round, square};
pub use opening::Opening;
pub use sign::{Sign, take_operator, take_sign};
pub use terms::{Terms, term};
