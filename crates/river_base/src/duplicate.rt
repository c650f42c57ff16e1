// Copies.
ghost use Rattle.std.specs.Prelude.{◌≡◌, IfOk};

use crate::{Batch, Change, Flat, Item, Listed, Name, NoMemory, Row};
use std::alloc::Global;

/// A value that has equal copies, which may take memory.
pub trait Duplicate {
    /// An equal value.
    fn copy(&self, alloc: Global) -> Result<Self, NoMemory>
        ensures { IfOk result (λ copy. copy ≡ self.now) };
}

impl Duplicate for u8 {
    fn copy(&self, _alloc: Global) -> Result<u8, NoMemory> {
        Ok(*self)
    }
}

impl Duplicate for i64 {
    fn copy(&self, _alloc: Global) -> Result<i64, NoMemory> {
        Ok(*self)
    }
}

impl Duplicate for Row {
    fn copy(&self, _alloc: Global) -> Result<Row, NoMemory> {
        Ok(*self)
    }
}

impl Duplicate for Name {
    fn copy(&self, _alloc: Global) -> Result<Name, NoMemory> {
        Ok(*self)
    }
}

impl Duplicate for (i64, Row) {
    fn copy(&self, _alloc: Global) -> Result<(i64, Row), NoMemory> {
        Ok(*self)
    }
}

impl<T: Duplicate + Drop> Duplicate for Listed<T> {
    fn copy(&self, alloc: Global) -> Result<Listed<T>, NoMemory> {
        let mut copies = Listed::new(alloc);
        for x in self.as_slice() {
            copies.push(x.copy(alloc)?)?;
        }
        Ok(copies)
    }
}

impl Duplicate for Batch {
    fn copy(&self, alloc: Global) -> Result<Batch, NoMemory> {
        Ok(Batch {
            at: self.at,
            rows: self.rows.copy(alloc)?,
        })
    }
}

impl Duplicate for Change {
    fn copy(&self, alloc: Global) -> Result<Change, NoMemory> {
        Ok(Change {
            at: self.at,
            plus: self.plus.copy(alloc)?,
            minus: self.minus.copy(alloc)?,
        })
    }
}

impl Duplicate for Flat {
    fn copy(&self, alloc: Global) -> Result<Flat, NoMemory> {
        match self {
            Flat::One(row) => Ok(Flat::One(*row)),
            Flat::Batch(batch) => Ok(Flat::Batch(batch.copy(alloc)?)),
            Flat::Change(change) => Ok(Flat::Change(change.copy(alloc)?)),
        }
    }
}

impl Duplicate for Item {
    fn copy(&self, alloc: Global) -> Result<Item, NoMemory> {
        match self {
            Item::Flat(flat) => Ok(Item::Flat(flat.copy(alloc)?)),
            Item::Pack(flats) => Ok(Item::Pack(flats.copy(alloc)?)),
        }
    }
}
