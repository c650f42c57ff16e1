// The content of a relation, kept so that a change costs its own rows.
ghost use Rattle.std.specs.Prelude.{◌≡◌, [], ◌++◌, length, map, replicate, IfOk, OnOk, MatchOption, Contains};
ghost use Rattle.river_base.specs.Row.{copies};
ghost use Rattle.kern_changes.specs.Counted.{CameOne, WentOne, CameAll, WentAll, Changed};
ghost use Rattle.kern_changes.specs.Keyed.{begins, begun, end_of};

use river_base::{Change, NoMemory, Row, Rows};
use std::alloc::Global;
use std::collections::BTreeMap;
use std::marker::Model;
use std::ops::Bound;

/// A bag of rows by counts, which contracts see as a list of them. A row costs the logarithm of
/// how many others there are.
#[derive(Drop)]
pub struct Content {
    counts: BTreeMap<Row, u64>,
}

impl Model for Content {
    ghost use Rattle.std.specs.Prelude.{ℤ, List};
    ghost use Rattle.kern_changes.specs.Counted.{rows_counted};

    ghost Value = { List (List ℤ) };

    ghost view = { λ s. rows_counted s.counts.entries };
}

impl Content {
    /// No row.
    pub fn new(alloc: Global) -> Content
        ensures { result ≡ [] }
    {
        Content {
            counts: BTreeMap::new(alloc),
        }
    }

    // How often a row is there.
    fn count(&self, row: &Row) -> u64
        ensures { result ≡ copies row.now self.now }
    {
        if self.counts.len() == 0 {
            return 0;
        }
        match self.counts.get(row) {
            Some(count) => *count,
            None => 0,
        }
    }

    // One more such row. So many that they cannot be counted are want of memory.
    pub(crate) fn put(&mut self, row: &Row) -> Result<(), NoMemory>
        ensures { OnOk result (CameOne row.now self.old self.new) }
    {
        let count = self.count(row);
        if count == u64::MAX {
            return Err(NoMemory);
        }
        self.counts.insert(*row, count + 1)?;
        Ok(())
    }

    // One such row less, where there is one.
    pub(crate) fn take(&mut self, row: &Row) -> Result<(), NoMemory>
        ensures { OnOk result (WentOne row.now self.old self.new) }
    {
        if self.counts.len() == 0 {
            return Ok(());
        }
        let count = self.count(row);
        if count > 1 {
            self.counts.insert(*row, count - 1)?;
        } else if count == 1 {
            self.counts.remove(row);
        }
        Ok(())
    }

    pub(crate) fn put_all(&mut self, rows: &[Row]) -> Result<(), NoMemory>
        ensures { OnOk result (CameAll rows.now self.old self.new) }
    {
        for row in rows {
            self.put(row)?;
        }
        Ok(())
    }

    fn take_all(&mut self, rows: &[Row]) -> Result<(), NoMemory>
        ensures { OnOk result (WentAll rows.now self.old self.new) }
    {
        for row in rows {
            self.take(row)?;
        }
        Ok(())
    }

    /// A change is made: its `minus` goes, as far as it is there, and its `plus` comes. More
    /// copies of a row than a number can count are want of memory, and then nothing is said of
    /// the bag.
    pub fn make(&mut self, change: &Change) -> Result<(), NoMemory>
        ensures { OnOk result (Changed change.now self.old self.new) }
    {
        self.take_all(change.minus.as_slice())?;
        self.put_all(change.plus.as_slice())?;
        Ok(())
    }

    /// All rows, each as often as it is there.
    pub fn rows(&self, alloc: Global) -> Result<Rows, NoMemory>
        ensures { IfOk result (λ rows. rows ≡ self.now) }
    {
        let mut rows = Rows::new(alloc);
        for (row, count) in &self.counts {
            push_copies(row, *count, &mut rows)?;
        }
        Ok(rows)
    }

    // The rows whose first value this is, each as often as it is there.
    pub(crate) fn push_begun(&self, value: i64, all: &mut Rows) -> Result<(), NoMemory>
        ensures { OnOk result (all.new ≡ all.old ++ begun value self.now) }
    {
        let first = Bound::Included(Row::one(value));
        for (row, count) in self.counts.range((first, behind(value))) {
            if begins(row, value) {
                push_copies(row, *count, all)?;
            }
        }
        Ok(())
    }

    // How many values some row has; None where there is no row.
    pub(crate) fn width(&self) -> Option<usize>
        ensures { MatchOption result (self.now ≡ []) (λ width. Contains (map length self.now) width) }
    {
        for (row, count) in &self.counts {
            if *count > 0 {
                return Some(row.width());
            }
        }
        None
    }
}

// Whether the row's first value is this.
#[tactic(auto, using(crate::proofs::Ranged::begins_first))]
fn begins(row: &Row, value: i64) -> bool
    ensures { result ≡ begins value row.now }
{
    row.values()[0] == value
}

// Where the rows end whose first value this is.
fn behind(value: i64) -> Bound<Row>
    ensures { result ≡ end_of value }
{
    if value == i64::MAX {
        Bound::Unbounded
    } else {
        Bound::Excluded(Row::one(value + 1))
    }
}

// So many copies of a row.
fn push_copies(row: &Row, count: u64, all: &mut Rows) -> Result<(), NoMemory>
    ensures { OnOk result (all.new ≡ all.old ++ replicate count row.now) }
{
    for _i in 0..count {
        all.push(*row)?;
    }
    Ok(())
}
