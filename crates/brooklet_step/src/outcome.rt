// What a run gives.

use crate::parts::{Lines, Tables};
use river_base::Numbers;

/// What a run of a plan gives: the history of each output, in the order of the outputs, the tables, in their order, and how often
/// each operator fired, a count of 2^63 - 1 standing for all that are greater.
#[derive(Drop)]
pub struct Outcome {
    pub outs: Lines,
    pub tables: Tables,
    pub counts: Numbers,
}
