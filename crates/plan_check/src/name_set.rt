// Sets of names.
ghost use Rattle.std.specs.Prelude.{◌≡◌, ◌<◌, [], length, IsTrue, ◌↔◌, IfOk, OnOk};
ghost use Rattle.river_plan.specs.Names.{count, with_name};
ghost use Rattle.river_plan.specs.Places.{place};

use indexmap::IndexSet;
use river_base::{Name, NoMemory};
use std::alloc::Global;
use std::marker::Model;

/// A set of names, which contracts see as the list of its names.
#[derive(Drop)]
pub(crate) struct NameSet {
    names: IndexSet<Name>,
}

impl Model for NameSet {
    ghost use Rattle.std.specs.Prelude.{ℕ, List};

    ghost Value = { List (List ℕ) };

    ghost view = { λ s. s.names.keys };
}

impl NameSet {
    /// The empty set.
    pub(crate) fn new(alloc: Global) -> NameSet
        ensures { result ≡ [] }
    {
        NameSet {
            names: IndexSet::new(alloc),
        }
    }

    /// Adds a name; answers whether it was not there before.
    pub(crate) fn insert(&mut self, name: Name) -> Result<bool, NoMemory>
        ensures fresh { IfOk result (λ fresh. IsTrue fresh ↔ (count name self.old ≡ 0)) }
        ensures added { OnOk result (self.new ≡ with_name self.old name) }
    {
        let (_, fresh) = self.names.insert_full(name)?;
        Ok(fresh)
    }

    /// How many names there are.
    pub(crate) fn len(&self) -> usize
        ensures { result ≡ length self.now }
    {
        self.names.len()
    }

    /// Whether the name is there.
    pub(crate) fn contains(&self, name: Name) -> bool
        ensures { IsTrue result ↔ (0 < count name self.now) }
    {
        self.names.contains(&name)
    }

    /// The place of the name, in the order in which names were added; how many there are where it is not there.
    pub(crate) fn place(&self, name: Name) -> usize
        ensures { result ≡ place self.now name }
    {
        self.names.get_index_of(&name).unwrap_or(self.names.len())
    }
}
