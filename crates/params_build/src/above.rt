// The streams that are declared above, by their names.
ghost use Rattle.std.specs.Prelude.{◌≡◌, [], ◌∷◌, OnOk};
ghost use Rattle.params_model.specs.Judged.{Above};
ghost use Rattle.params_model.specs.declared.fault.Fault.TheVariants.{UnknownName, NameTwice, Arity};
ghost use Rattle.params_model.specs.Making.{demand};
ghost use Rattle.params_model.specs.Judged.{has_arity, is_there};
ghost use Rattle.streamit_model.specs.Meaning.{look};
ghost use Rattle.std.specs.Prelude.{ℕ, not};
ghost use Rattle.params_build.specs.Above.{CountsParameters};
ghost use Rattle.params_build.specs.Judging.{JudgesAlways};

use indexmap::IndexMap;
use params_model::Fault;
use river_base::{Name, NoMemory};
use std::alloc::Global;

/// The streams above, and how many parameters the nearest of each name has.
#[derive(Drop)]
pub(crate) struct StreamsAbove {
    pub arities: IndexMap<Name, usize>,
}

impl StreamsAbove {
    /// There is none.
    pub fn new(alloc: Global) -> StreamsAbove
        ensures { CountsParameters result [] }
    {
        StreamsAbove {
            arities: IndexMap::new(alloc),
        }
    }

    // How many parameters the nearest stream of this name has, where there is one.
    fn arity(&self, name: &Name) -> Option<usize>
        ensures { (above : Above) → CountsParameters self.now above → result ≡ look above name.now }
    {
        self.arities.get(name).copied()
    }

    /// Whether no stream above has this name.
    pub fn is_new(&self, name: &Name) -> Result<(), Fault>
        ensures { (k : ℕ) (above : Above) → CountsParameters self.now above → JudgesAlways k result (demand (not (is_there (look above name.now))) k NameTwice) }
    {
        match self.arity(name) {
            Some(_) => Err(Fault::NameTwice),
            None => Ok(()),
        }
    }

    /// Whether a stream above has this name.
    pub fn has(&self, name: &Name) -> Result<(), Fault>
        ensures { (k : ℕ) (above : Above) → CountsParameters self.now above → JudgesAlways k result (demand (is_there (look above name.now)) k UnknownName) }
    {
        match self.arity(name) {
            Some(_) => Ok(()),
            None => Err(Fault::UnknownName),
        }
    }

    /// Whether the nearest stream of this name has so many parameters.
    pub fn takes(&self, name: &Name, count: usize) -> Result<(), Fault>
        ensures { (k : ℕ) (above : Above) → CountsParameters self.now above → JudgesAlways k result (demand (has_arity (look above name.now) count) k Arity) }
    {
        if self.arity(name) == Some(count) {
            Ok(())
        } else {
            Err(Fault::Arity)
        }
    }

    /// One stream more.
    pub fn declare(&mut self, name: Name, count: usize) -> Result<(), NoMemory>
        ensures { (above : Above) → CountsParameters self.old above → OnOk result (CountsParameters self.new ((name, count) ∷ above)) }
    {
        self.arities.insert(name, count)?;
        Ok(())
    }
}
