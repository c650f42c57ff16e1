// Sets of words.
ghost use Rattle.std.specs.Prelude.{◌≡◌, [], IsTrue, ◌↔◌, IfOk, OnOk};
ghost use Rattle.river_plan.specs.Names.{count, with_name};

use indexmap::IndexSet;
use river_base::{NoMemory, Text};
use std::alloc::Global;
use std::marker::Model;

/// A set of words, which contracts see as the list of its words.
#[derive(Drop)]
pub(crate) struct WordSet {
    words: IndexSet<Text>,
}

impl Model for WordSet {
    ghost use Rattle.std.specs.Prelude.{ℕ, List};

    ghost Value = { List (List ℕ) };

    ghost view = { λ s. s.words.keys };
}

impl WordSet {
    /// The empty set.
    pub(crate) fn new(alloc: Global) -> WordSet
        ensures { result ≡ [] }
    {
        WordSet {
            words: IndexSet::new(alloc),
        }
    }

    /// Adds a word; answers whether it was not there before.
    pub(crate) fn insert(&mut self, word: Text) -> Result<bool, NoMemory>
        ensures fresh { IfOk result (λ fresh. IsTrue fresh ↔ (count word self.old ≡ 0)) }
        ensures added { OnOk result (self.new ≡ with_name self.old word) }
    {
        let (_, fresh) = self.words.insert_full(word)?;
        Ok(fresh)
    }
}
