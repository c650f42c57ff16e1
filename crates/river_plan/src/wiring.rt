// The names of a plan as places.
ghost use Rattle.std.specs.Prelude.{◌≡◌, IfOk};

use river_base::{Listed, NoMemory};
use std::alloc::Global;

/// Places among the queues, or among the variables, of a plan.
pub type Places = Listed<usize>;

/// The role of a name at an operator: a queue that it reads or writes, or a variable of it.
#[derive(Clone, Copy)]
pub enum Role {
    Reads,
    Writes,
    Vars,
}

/// What operators use, both ways: the places that each operator uses, and the operators that use each place.
#[derive(Drop)]
pub struct Uses {
    pub by_op: Listed<Places>,
    pub by_place: Listed<Places>,
}

/// The queues that operators read and write, port by port, and their variables.
#[derive(Drop)]
pub struct Wiring {
    pub reads: Uses,
    pub writes: Uses,
    pub vars: Uses,
}

impl Uses {
    // An equal value.
    fn copy(&self, alloc: Global) -> Result<Uses, NoMemory>
        ensures { IfOk result (λ copy. copy ≡ self.now) }
    {
        Ok(Uses {
            by_op: copy_all(alloc, &self.by_op)?,
            by_place: copy_all(alloc, &self.by_place)?,
        })
    }
}

impl Wiring {
    /// An equal wiring.
    pub fn copy(&self, alloc: Global) -> Result<Wiring, NoMemory>
        ensures { IfOk result (λ copy. copy ≡ self.now) }
    {
        Ok(Wiring {
            reads: self.reads.copy(alloc)?,
            writes: self.writes.copy(alloc)?,
            vars: self.vars.copy(alloc)?,
        })
    }
}

// Equal lists of places.
fn copy_all(alloc: Global, lists: &Listed<Places>) -> Result<Listed<Places>, NoMemory>
    ensures { IfOk result (λ copies. copies ≡ lists.now) }
{
    let mut copies = Listed::new(alloc);
    for places in lists.as_slice() {
        copies.push(copy_places(alloc, places)?)?;
    }
    Ok(copies)
}

// Equal places.
fn copy_places(alloc: Global, places: &Places) -> Result<Places, NoMemory>
    ensures { IfOk result (λ copy. copy ≡ places.now) }
{
    let mut copy = Places::new(alloc);
    for place in places.as_slice() {
        copy.push(*place)?;
    }
    Ok(copy)
}
