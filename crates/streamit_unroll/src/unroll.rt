// Unrolls the blocks of a filter.
ghost use Rattle.std.specs.Prelude.{◌≡◌};
ghost use Rattle.streamit_model.specs.Elaborate.{counted};
ghost use Rattle.streamit_unroll.specs.View.{Judges};
ghost use Rattle.streamit_unroll.specs.Unrolling.{at_of};

use crate::{Names, RefusedUnit};
use river_base::MOST_STATEMENTS;
use streamit_model::Fault;

/// What is known where the reading stands, and what was counted.
#[derive(Drop)]
pub(crate) struct Unroller {
    pub names: Names,
    pub slots: u32,
    pub popped: u32,
    pub pushed: u32,
    pub size: u32,
}

impl Unroller {
    // One statement or turn more.
    pub fn counted(&mut self) -> Result<(), RefusedUnit>
        ensures judged { Judges (λ _. at_of self.new) result (counted (at_of self.old)) }
        ensures names { self.new.names ≡ self.old.names }
    {
        if self.size < MOST_STATEMENTS {
            self.size += 1;
            Ok(())
        } else {
            Err(RefusedUnit::Fault(Fault::Limit))
        }
    }
}
