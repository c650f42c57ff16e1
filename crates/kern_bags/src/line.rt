// Changes in a line.
ghost use Rattle.std.specs.Prelude.{◌≡◌, ◌↔◌, [], ◌∷◌, ◌++◌, IsTrue, OnOk, MatchOption};

use river_base::{Change, Listed, NoMemory};
use std::alloc::Global;
use std::collections::VecDeque;
use std::marker::Model;

/// A list of changes.
pub(crate) type Changes = Listed<Change>;

/// Changes in a line: new ones come to its end, and each leaves at its front. Contracts see the
/// list of those that are there.
#[derive(Drop)]
pub(crate) struct ChangeLine {
    changes: VecDeque<Change>,
}

impl Model for ChangeLine {
    ghost use Rattle.std.specs.Prelude.{List};
    ghost use Rattle.river_base.specs.declared.item.Change.{Change};

    ghost Value = { List Change };

    ghost view = { λ l. l.changes.items };
}

impl ChangeLine {
    /// The empty line.
    pub fn new(alloc: Global) -> ChangeLine
        ensures { result ≡ [] }
    {
        ChangeLine {
            changes: VecDeque::new(alloc),
        }
    }

    /// Whether there is no change.
    pub fn is_empty(&self) -> bool
        ensures { IsTrue result ↔ (self.now ≡ []) }
    {
        self.changes.is_empty()
    }

    /// A change comes to the end.
    pub fn push(&mut self, change: Change) -> Result<(), NoMemory>
        ensures { OnOk result (self.new ≡ self.old ++ change ∷ []) }
    {
        self.changes.push_back(change)?;
        Ok(())
    }

    /// The change at the front leaves; None where there is none.
    pub fn pop(&mut self) -> Option<Change>
        ensures { MatchOption result ((self.old ≡ []) × (self.new ≡ [])) (λ x. self.old ≡ x ∷ self.new) }
    {
        self.changes.pop_front()
    }
}
