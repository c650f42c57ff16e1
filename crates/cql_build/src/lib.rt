//! Judges the units of CQL programs, and builds their plans.
#![tactic(auto)]

mod build;
mod columns;
mod item;
mod items;
mod judge;
mod known;
mod names;
mod ops;
mod output;
mod places;
mod planning;
mod queries;
mod uses;
mod values;

use item::Item;
use known::Known;
pub use planning::{Refused, plan};
