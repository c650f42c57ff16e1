// Names that are known, found by hash.
ghost use Rattle.std.specs.Prelude.{◌≡◌, [], ◌∷◌, ◌++◌, not, take, length, false, IfOk, OnOk};
ghost use Rattle.params_text.specs.Params.{is_one_of};

use indexmap::IndexSet;
use river_base::{Name, NoMemory};
use std::alloc::Global;
use std::marker::Model;

/// Names that are known, each of them once, the newest last. Contracts see them in order.
#[derive(Drop)]
pub(crate) struct KnownNames {
    names: IndexSet<Name>,
}

impl Model for KnownNames {
    ghost use Rattle.std.specs.Prelude.{ℕ, List};

    ghost Value = { List (List ℕ) };

    ghost view = { λ s. s.names.keys };
}

impl KnownNames {
    /// There is none.
    pub fn new(alloc: Global) -> KnownNames
        ensures { result ≡ [] }
    {
        KnownNames {
            names: IndexSet::new(alloc),
        }
    }

    /// Whether a name is one of them.
    pub fn has(&self, name: &Name) -> bool
        ensures { result ≡ is_one_of self.now name.now }
    {
        self.names.contains(name)
    }

    /// One name more, where it is none of them; answers whether it was none.
    pub fn add(&mut self, name: Name) -> Result<bool, NoMemory>
        ensures fresh { IfOk result (λ fresh. fresh ≡ not (is_one_of self.old name)) }
        ensures added { OnOk result (is_one_of self.old name ≡ false → self.new ≡ self.old ++ name ∷ []) }
    {
        let (_, fresh) = self.names.insert_full(name)?;
        Ok(fresh)
    }

    /// How many there are.
    pub fn len(&self) -> usize
        ensures { result ≡ length self.now }
    {
        self.names.len()
    }

    /// Leaves the first so many.
    pub fn truncate(&mut self, count: usize)
        ensures { self.new ≡ take count self.old }
    {
        self.names.truncate(count);
    }
}
