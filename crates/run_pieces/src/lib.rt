//! Tallies in pieces by runs of river: what a run wrote with status 0 is what the law on pieces asks of a run, and what one told with
//! status 1 is the fault of its piece.
#![tactic(auto)]

pub mod laws;
