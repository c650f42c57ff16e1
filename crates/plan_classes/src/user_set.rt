// Sets of lists of operators.
ghost use Rattle.std.specs.Prelude.{◌≡◌, ◌<◌, [], length, IfOk};
ghost use Rattle.plan_classes.specs.Sets.{place_in, with_list};

use indexmap::IndexSet;
use river_base::{NoMemory, Numbers};
use std::alloc::Global;
use std::marker::Model;

/// A set of lists of operators, which contracts see as the list of them, in the order in which they came.
#[derive(Drop)]
pub(crate) struct UserSet {
    lists: IndexSet<Numbers>,
}

impl Model for UserSet {
    ghost use Rattle.std.specs.Prelude.{ℤ, List};

    ghost Value = { List (List ℤ) };

    ghost view = { λ s. s.lists.keys };
}

impl UserSet {
    /// The empty set.
    pub(crate) fn new(alloc: Global) -> UserSet
        ensures { result ≡ [] }
    {
        UserSet {
            lists: IndexSet::new(alloc),
        }
    }

    /// Adds a list; answers its place.
    pub(crate) fn class_of(&mut self, ops: Numbers) -> Result<usize, NoMemory>
        ensures place { IfOk result (λ place. place ≡ place_in self.old ops) }
        ensures within { IfOk result (λ place. place < length self.new) }
        ensures added { IfOk result (λ place. self.new ≡ with_list self.old ops) }
    {
        let (place, _) = self.lists.insert_full(ops)?;
        Ok(place)
    }
}
