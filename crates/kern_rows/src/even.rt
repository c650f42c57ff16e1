// Rows of one width.
ghost use Rattle.std.specs.Prelude.{◌≡◌, ℤ, List, ◌≤◌, ◌<◌, ◌↔◌, [], ◌∷◌, ◌++◌, length, take, drop, slice_index_or, IsTrue, OnOk, OnErr, MatchOption};
ghost use Rattle.kern_rows.specs.Even.{AreAsWide};

use crate::queue::Queue;
use river_base::{NoMemory, Row};
use std::alloc::Global;
use std::marker::Model;

/// Rows of one width, which is that of the first: their values lie one after another. Contracts see
/// the list of the rows.
#[derive(Drop)]
pub struct EvenRows {
    width: usize,
    count: usize,
    values: Queue,
}

impl Model for EvenRows {
    ghost use Rattle.std.specs.Prelude.{ℤ, List};
    ghost use Rattle.kern_rows.specs.Even.{AreEven};
    ghost use Rattle.river_base.specs.WideRows.{cut_rows};

    ghost Value = { List (List ℤ) };

    ghost view = { λ r. cut_rows r.width r.count r.values };

    ghost invariant = { λ r. AreEven r.width r.count r.values };
}

impl EvenRows {
    /// No row.
    pub fn new(alloc: Global) -> EvenRows
        ensures { result ≡ [] }
    {
        EvenRows {
            width: 1,
            count: 0,
            values: Queue::new(alloc),
        }
    }

    /// How many rows there are.
    pub fn len(&self) -> usize
        ensures { result ≡ length self.now }
    {
        self.count
    }

    /// Whether a row of these values is as wide as the others.
    pub fn takes(&self, row: &[i64]) -> bool
        ensures { IsTrue result ↔ AreAsWide row.now self.now }
    {
        self.count == 0 || self.width == row.len()
    }

    /// The values of the row at a place, from 0.
    pub fn at(&self, place: usize) -> &[i64]
        requires { place < length self.now }
        ensures row { (d : List ℤ) → result.now ≡ slice_index_or self.now place d }
        ensures some { 1 ≤ length result.now }
        ensures at_most { length result.now ≤ 16 }
    {
        let all = self.values.len();
        let behind = (self.count - place) * self.width;
        self.values.slice(all - behind, self.width)
    }

    /// A row of these values comes to the end; changes nothing where there is no memory.
    pub fn push(&mut self, row: &[i64]) -> Result<(), NoMemory>
        requires some { 1 ≤ length row.now }
        requires at_most { length row.now ≤ 16 }
        requires as_wide { AreAsWide row.now self.old }
        ensures ok { OnOk result (self.new ≡ self.old ++ row.now ∷ []) }
        ensures err { OnErr result (self.new ≡ self.old) }
    {
        self.values.extend(row)?;
        let all = self.values.len();
        prove!(self.count < all);
        self.width = row.len();
        self.count += 1;
        Ok(())
    }

    /// Keeps the first rows, at most `count`.
    pub fn truncate(&mut self, count: usize)
        ensures { self.new ≡ take count self.old }
    {
        if count < self.count {
            let all = self.values.len();
            let behind = (self.count - count) * self.width;
            self.values.truncate(all - behind);
            self.count = count;
        }
    }

    /// The first row leaves; None where there is none.
    pub fn pop(&mut self) -> Option<Row>
        ensures { MatchOption result ((self.old ≡ []) × (self.new ≡ [])) (λ row. self.old ≡ row ∷ self.new) }
    {
        if self.count == 0 {
            return None;
        }
        let row = Row::from_slice(self.values.first(self.width));
        self.values.remove(self.width);
        self.count -= 1;
        Some(row)
    }

    /// The first row leaves; changes nothing where there is none.
    pub fn drop_first(&mut self)
        ensures { self.new ≡ drop 1 self.old }
    {
        if self.count > 0 {
            self.values.remove(self.width);
            self.count -= 1;
        }
    }

    /// No row is left; the memory is kept.
    pub fn clear(&mut self)
        ensures { self.new ≡ [] }
    {
        self.values.clear();
        self.count = 0;
    }

    /// The rows of another leave it and come to the end here, where they are as wide as these;
    /// changes nothing where they are not, or where there is no memory.
    pub(crate) fn take_from(&mut self, other: &mut EvenRows) -> Result<(), NoMemory>
        ensures ok { OnOk result (self.new ++ other.new ≡ self.old ++ other.old) }
        ensures err { OnErr result (self.new ≡ self.old) }
    {
        if other.count > 0 && (self.count == 0 || self.width == other.width) {
            self.values.extend(other.values.all())?;
            let all = self.values.len();
            self.width = other.width;
            self.count += other.count;
            other.clear();
        }
        Ok(())
    }
}
