//! Programs with parameters judged: their constants, their filters, their steps and their units.
#![tactic(auto)]

mod above;
mod constant;
mod filter;
mod judge;
mod names;
mod refused;
mod step;
mod unit;

pub use judge::{judged, top};
pub use refused::Refused;
use refused::RefusedUnit;
