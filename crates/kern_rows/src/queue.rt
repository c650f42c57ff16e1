// Values that wait in a line.
ghost use Rattle.std.specs.Prelude.{◌≡◌, ◌≤◌, ◌+◌, [], ◌∷◌, ◌++◌, length, take, drop, OnOk, OnErr};

use river_base::NoMemory;
use std::alloc::Global;
use std::marker::Model;

// For how many values an empty queue keeps memory.
const KEPT: usize = 64;

/// Values of which the first can be read as a slice and taken out. Contracts see the list of those
/// that are there.
#[derive(Drop)]
pub(crate) struct Queue {
    items: Vec<i64>,
    // how many at the front of `items` were taken out; they are dropped once they are more than the
    // others
    taken: usize,
}

impl Model for Queue {
    ghost use Rattle.std.specs.Prelude.{ℤ, List, drop, length, ◌≤◌};

    ghost Value = { List ℤ };

    ghost view = { λ q. drop q.taken q.items.items };

    ghost invariant = { λ q. q.taken ≤ length q.items.items };
}

impl Queue {
    /// The empty queue.
    pub fn new(alloc: Global) -> Queue
        ensures { result ≡ [] }
    {
        Queue {
            items: Vec::new(alloc),
            taken: 0,
        }
    }

    /// How many values there are.
    pub fn len(&self) -> usize
        ensures { result ≡ length self.now }
    {
        self.items.len() - self.taken
    }

    /// Appends a value; changes nothing where there is no memory.
    pub fn push(&mut self, value: i64) -> Result<(), NoMemory>
        ensures ok { OnOk result (self.new ≡ self.old ++ value ∷ []) }
        ensures err { OnErr result (self.new ≡ self.old) }
    {
        self.items.push(value)?;
        Ok(())
    }

    /// Appends these values; changes nothing where there is no memory.
    pub fn extend(&mut self, values: &[i64]) -> Result<(), NoMemory>
        ensures ok { OnOk result (self.new ≡ self.old ++ values.now) }
        ensures err { OnErr result (self.new ≡ self.old) }
    {
        self.items.extend_from_slice(values)?;
        Ok(())
    }

    /// No value is left; the memory is kept.
    pub fn clear(&mut self)
        ensures { self.new ≡ [] }
    {
        self.items.clear();
        self.taken = 0;
    }

    /// Keeps the first values, of which there are at least so many.
    pub fn truncate(&mut self, count: usize)
        requires { count ≤ length self.old }
        ensures { self.new ≡ take count self.old }
    {
        self.items.truncate(self.taken + count);
    }

    /// So many values from a place on, from 0.
    pub fn slice(&self, from: usize, count: usize) -> &[i64]
        requires { from + count ≤ length self.now }
        ensures { result.now ≡ take count (drop from self.now) }
    {
        let start = self.taken + from;
        &self.items[start..start + count]
    }

    /// The values, in order.
    pub fn all(&self) -> &[i64]
        ensures { result.now ≡ self.now }
    {
        &self.items[self.taken..]
    }

    /// The first values, of which there are at least so many.
    pub fn first(&self, count: usize) -> &[i64]
        requires { count ≤ length self.now }
        ensures { result.now ≡ take count self.now }
    {
        &self.items[self.taken..self.taken + count]
    }

    /// Takes out the first values, of which there are at least so many.
    pub fn remove(&mut self, count: usize)
        requires { count ≤ length self.old }
        ensures { self.new ≡ drop count self.old }
    {
        self.taken += count;
        if self.taken > self.items.len() / 2 {
            self.items.drain(..self.taken);
            self.taken = 0;
            self.give_back();
        }
    }

    // A queue that is empty gives back its memory, but for a few values.
    fn give_back(&mut self)
        ensures { self.new ≡ self.old }
    {
        if self.items.is_empty() {
            self.items.shrink_to(KEPT);
        }
    }
}
