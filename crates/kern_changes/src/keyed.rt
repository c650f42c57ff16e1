// The content of a relation, kept by one of its columns.
ghost use Rattle.std.specs.Prelude.{◌≡◌, ◌<◌, ◌≤◌, [], ◌++◌, length, map, drop, slice_set, All, IfOk, OnOk, MatchOption, Contains};
ghost use Rattle.kern_changes.specs.Counted.{AreSame, CameOne, WentOne, CameAll, WentAll, Changed};
ghost use Rattle.kern_changes.specs.Keyed.{turned, rows_with, at_place};

use crate::Content;
use river_base::{Change, MAX_ROW, NoMemory, Row, Rows};
use std::alloc::Global;
use std::marker::Model;

/// A bag of rows, which contracts see as a list of them, and in which the rows that have a value in
/// a column are found by it. It is kept by one column, at first the first one; the first look for
/// another puts it into that one's order, and from then on a look costs the logarithm of how many
/// rows there are, and what it finds.
#[derive(Drop)]
pub struct KeyedContent {
    column: usize,
    // Each row with the value of the column in front, and the first value in its place.
    content: Content,
}

impl Model for KeyedContent {
    ghost use Rattle.std.specs.Prelude.{ℤ, List, map};
    ghost use Rattle.kern_changes.specs.Keyed.{turned};

    ghost Value = { List (List ℤ) };

    ghost view = { λ s. map (turned s.column) s.content };
}

impl KeyedContent {
    /// No row.
    pub fn new(alloc: Global) -> KeyedContent
        ensures { result ≡ [] }
    {
        KeyedContent {
            column: 0,
            content: Content::new(alloc),
        }
    }

    /// How many values some row has; None where there is no row.
    pub fn width(&self) -> Option<usize>
        ensures { MatchOption result (self.now ≡ []) (λ width. Contains (map length self.now) width) }
    {
        self.content.width()
    }

    fn put(&mut self, row: &Row) -> Result<(), NoMemory>
        ensures { OnOk result (CameOne row.now self.old self.new) }
    {
        self.content.put(&turned(row, self.column))
    }

    fn take(&mut self, row: &Row) -> Result<(), NoMemory>
        ensures { OnOk result (WentOne row.now self.old self.new) }
    {
        self.content.take(&turned(row, self.column))
    }

    fn put_all(&mut self, rows: &[Row]) -> Result<(), NoMemory>
        ensures { OnOk result (CameAll rows.now self.old self.new) }
    {
        for row in rows {
            self.put(row)?;
        }
        Ok(())
    }

    fn take_all(&mut self, rows: &[Row]) -> Result<(), NoMemory>
        ensures { OnOk result (WentAll rows.now self.old self.new) }
    {
        for row in rows {
            self.take(row)?;
        }
        Ok(())
    }

    /// A change is made: its `minus` goes, as far as it is there, and its `plus` comes. More
    /// copies of a row than a number can count are want of memory, and then nothing is said of
    /// the bag.
    pub fn make(&mut self, change: &Change) -> Result<(), NoMemory>
        ensures { OnOk result (Changed change.now self.old self.new) }
    {
        self.take_all(change.minus.as_slice())?;
        self.put_all(change.plus.as_slice())?;
        Ok(())
    }

    /// All rows, each as often as it is there.
    pub fn rows(&self, alloc: Global) -> Result<Rows, NoMemory>
        ensures { IfOk result (λ rows. rows ≡ self.now) }
    {
        let mut rows = self.content.rows(alloc)?;
        turn_all(&mut rows, self.column);
        Ok(rows)
    }

    /// The rows that have this value in this column, which each row has, come to an empty list.
    /// Where there is no memory, nothing is said of the bag.
    pub fn find(
        &mut self,
        alloc: Global,
        column: usize,
        value: i64,
        found: &mut Rows,
    ) -> Result<(), NoMemory>
        requires wide { All (λ row. column < length row) self.old }
        requires empty { found.old ≡ [] }
        ensures same { OnOk result (AreSame self.old self.new) }
        ensures found { OnOk result (AreSame found.new (rows_with column value self.old)) }
    {
        turn_to(alloc, self.column, column, &mut self.content)?;
        self.column = column;
        self.content.push_begun(value, found)?;
        turn_all(found, column);
        Ok(())
    }
}

// Rows that were kept by one column are kept by another.
fn turn_to(alloc: Global, from: usize, to: usize, content: &mut Content) -> Result<(), NoMemory>
    ensures { OnOk result (AreSame (map (turned from) content.old) (map (turned to) content.new)) }
{
    if from == to {
        return Ok(());
    }
    let mut rows = content.rows(alloc)?;
    turn_all(&mut rows, from);
    turn_all(&mut rows, to);
    let mut by_column = Content::new(alloc);
    by_column.put_all(rows.as_slice())?;
    *content = by_column;
    Ok(())
}

// The first value and that at a place change places; the row itself where there is no such place.
#[tactic(auto, using(crate::proofs::Turning::taken_back))]
fn turned(row: &Row, place: usize) -> Row
    ensures { result ≡ turned place row.now }
{
    let mut all = [0; MAX_ROW];
    put_turned(row.values(), place, &mut all);
    Row::from_slice(&all[..row.width()])
}

// The same at the begin of a list that has a place for each value.
fn put_turned(values: &[i64], place: usize, to: &mut [i64])
    requires { length values.now ≤ length to.old }
    ensures { to.new ≡ turned place values.now ++ drop (length values.now) to.old }
{
    let count = values.len();
    to[..count].copy_from_slice(values);
    if 0 < place && place < count {
        change_places(place, to);
    }
}

// The first value and that at a place change places.
fn change_places(place: usize, to: &mut [i64])
    requires { place < length to.old }
    ensures { to.new ≡ slice_set (slice_set to.old 0 (at_place place to.old)) place (at_place 0 to.old) }
{
    let first = to[0];
    to[0] = to[place];
    to[place] = first;
}

// The same of each row.
fn turn_all(rows: &mut Rows, column: usize)
    ensures { rows.new ≡ map (turned column) rows.old }
{
    for place in 0..rows.len() {
        let row = turned(rows.at(place), column);
        *rows.at_mut(place) = row;
    }
}
