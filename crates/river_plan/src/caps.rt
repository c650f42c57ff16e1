// How many items queues hold at most.
ghost use Rattle.std.specs.Prelude.{◌≡◌, IfOk};
ghost use Rattle.river_plan.specs.Caps.{capacity, first_cap, own_of, KnowsCaps};

use indexmap::IndexMap;
use river_base::{Duplicate, Listed, Name, NoMemory};
use std::alloc::Global;

/// A queue holds at most so many items.
#[derive(Clone, Copy)]
pub struct Cap {
    /// The queue's name.
    pub queue: Name,
    /// How many items it holds at most.
    pub most: u32,
}

/// A list of capacities; of those with one name the first counts.
pub type Caps = Listed<Cap>;

impl Duplicate for Cap {
    fn copy(&self, _alloc: Global) -> Result<Cap, NoMemory> {
        Ok(*self)
    }
}

/// Capacities by the names of queues.
#[derive(Drop)]
pub struct CapsByName {
    caps: IndexMap<Name, u32>,
}

impl CapsByName {
    /// The capacities of this list, each found without a search through the list.
    pub fn new(alloc: Global, caps: &Caps) -> Result<CapsByName, NoMemory>
        ensures { IfOk result (λ own. own_of own ≡ first_cap caps.now) }
    {
        let caps = by_name(alloc, caps)?;
        Ok(CapsByName { caps })
    }

    /// The capacity of the queue, if it has one of its own.
    pub fn own(&self, queue: Name) -> Option<u32>
        ensures { result ≡ own_of self.now queue }
    {
        self.caps.get(&queue).copied()
    }

    /// The capacity of the queue, and `cap` where it has none of its own.
    pub fn capacity(&self, queue: Name, cap: u32) -> u32
        ensures { result ≡ capacity cap (own_of self.now) queue }
    {
        self.own(queue).unwrap_or(cap)
    }
}

// For each name the number of its first entry: later entries are put in before.
fn by_name(alloc: Global, caps: &Caps) -> Result<IndexMap<Name, u32>, NoMemory>
    ensures { IfOk result (λ known. KnowsCaps known caps.now) }
{
    let mut known = IndexMap::new(alloc);
    let count = caps.len();
    for back in 0..count {
        let cap = *caps.at(count - 1 - back);
        known.insert(cap.queue, cap.most)?;
    }
    Ok(known)
}
