//! From the trees of StreamIt filters to the filters of plans: unrolls loops, and tells the first fault.
#![tactic(auto)]

mod blocks;
mod filters;
mod lean;
mod names;
mod refused;
mod simple;
mod term;
mod unroll;

pub use filters::filter;
use names::{Known, Names};
pub use refused::RefusedUnit;
use unroll::Unroller;
