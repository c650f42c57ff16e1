// Items in a line.
ghost use Rattle.std.specs.Prelude.{◌≡◌, List, ◌↔◌, ◌<◌, ◌≤◌, [], ◌∷◌, ◌++◌, length, take, drop, slice_get, slice_index_or, Some, IsTrue, IfOk, OnOk, OnErr, MatchOption, IfSome};
ghost use Rattle.river_base.specs.declared.item.Item.{Item};
ghost use Rattle.river_base.specs.declared.item.Item.TheVariants as variant;
ghost use Rattle.river_base.specs.declared.item.Flat.TheVariants as flat;
ghost use Rattle.kern_rows.specs.Even.{row_items};

use crate::even::EvenRows;
use river_base::{Duplicate, Flat, Item, Items, NoMemory, Row};
use std::alloc::Global;
use std::collections::VecDeque;
use std::marker::Model;

// For how many items an empty line keeps memory.
const KEPT: usize = 16;

/// Items in a line: new ones come to its end, and each leaves at its front. As long as all are rows
/// of one width, their values alone are kept. Contracts see the list of the items that are there.
#[derive(Drop)]
pub struct ItemLine {
    // the rows in front
    rows: EvenRows,
    // the items behind them
    others: VecDeque<Item>,
}

impl Model for ItemLine {
    ghost use Rattle.std.specs.Prelude.{List, ◌++◌};
    ghost use Rattle.river_base.specs.declared.item.Item as item;
    ghost use Rattle.kern_rows.specs.Even.{row_items};

    ghost Value = { List item.Item };

    ghost view = { λ l. row_items l.rows ++ l.others.items };
}

impl ItemLine {
    /// The empty line.
    pub fn new(alloc: Global) -> ItemLine
        ensures { result ≡ [] }
    {
        ItemLine {
            rows: EvenRows::new(alloc),
            others: VecDeque::new(alloc),
        }
    }

    /// The line of these items.
    pub fn from_items(alloc: Global, items: Items) -> ItemLine
        ensures { result ≡ items }
    {
        ItemLine {
            rows: EvenRows::new(alloc),
            others: VecDeque::from_vec(items.into_vec()),
        }
    }

    /// The line of these rows.
    pub fn from_rows(alloc: Global, rows: EvenRows) -> ItemLine
        ensures { result ≡ row_items rows }
    {
        ItemLine {
            rows,
            others: VecDeque::new(alloc),
        }
    }

    /// Whether there is no item.
    pub fn is_empty(&self) -> bool
        ensures { IsTrue result ↔ (length self.now ≡ 0) }
    {
        self.rows.len() == 0 && self.others.is_empty()
    }

    /// Whether there is an item at a place, from 0.
    pub fn has(&self, place: usize) -> bool
        ensures { IsTrue result ↔ (place < length self.now) }
    {
        let rows = self.rows.len();
        place < rows || place - rows < self.others.len()
    }

    /// A copy of the item at a place, from 0.
    pub fn copy_at(&self, alloc: Global, place: usize) -> Result<Item, NoMemory>
        requires { place < length self.now }
        ensures { IfOk result (λ item. (d : Item) → item ≡ slice_index_or self.now place d) }
    {
        let rows = self.rows.len();
        if place < rows {
            let row = Row::from_slice(self.rows.at(place));
            return Ok(Item::Flat(Flat::One(row)));
        }
        self.others[place - rows].copy(alloc)
    }

    /// The rows in front, and the items behind them.
    pub fn parts(&self) -> (&EvenRows, &VecDeque<Item>)
        ensures { self.now ≡ row_items result.0.now ++ result.1.now.items }
    {
        (&self.rows, &self.others)
    }

    /// The values of the item in front, where it is a row of those that are kept as values.
    pub fn front_values(&self) -> Option<&[i64]>
        ensures front { IfSome result (λ row. (rest : List Item) × (self.now ≡ variant.Flat (flat.One row.now) ∷ rest)) }
        ensures some { IfSome result (λ row. 1 ≤ length row.now) }
        ensures at_most { IfSome result (λ row. length row.now ≤ 16) }
    {
        self.row_at(0)
    }

    /// The values of the item at a place, from 0, where it is a row of those that are kept as values.
    pub fn row_at(&self, place: usize) -> Option<&[i64]>
        ensures item { IfSome result (λ row. slice_get self.now place ≡ Some (variant.Flat (flat.One row.now))) }
        ensures some { IfSome result (λ row. 1 ≤ length row.now) }
        ensures at_most { IfSome result (λ row. length row.now ≤ 16) }
    {
        if place < self.rows.len() {
            return Some(self.rows.at(place));
        }
        None
    }

    /// A row of these 1 to 16 values comes to the end; changes nothing where there is no memory.
    pub fn push_values(&mut self, row: &[i64]) -> Result<(), NoMemory>
        requires some { 1 ≤ length row.now }
        requires at_most { length row.now ≤ 16 }
        ensures ok { OnOk result (self.new ≡ self.old ++ variant.Flat (flat.One row.now) ∷ []) }
        ensures err { OnErr result (self.new ≡ self.old) }
    {
        if self.others.is_empty() && self.rows.takes(row) {
            return self.rows.push(row);
        }
        self.push_other(Item::Flat(Flat::One(Row::from_slice(row))))
    }

    /// An item comes to the end; changes nothing where there is no memory.
    pub fn push(&mut self, item: Item) -> Result<(), NoMemory>
        ensures ok { OnOk result (self.new ≡ self.old ++ item ∷ []) }
        ensures err { OnErr result (self.new ≡ self.old) }
    {
        if let Item::Flat(Flat::One(row)) = &item {
            if self.others.is_empty() && self.rows.takes(row.values()) {
                self.rows.push(row.values())?;
                return Ok(());
            }
        }
        self.push_other(item)
    }

    // An item comes to the end, whatever is there.
    fn push_other(&mut self, item: Item) -> Result<(), NoMemory>
        ensures ok { OnOk result (self.new ≡ self.old ++ item ∷ []) }
        ensures err { OnErr result (self.new ≡ self.old) }
    {
        self.others.push_back(item)?;
        Ok(())
    }

    /// These items come to the end, in order; changes nothing where there is no memory.
    pub fn append(&mut self, items: Items) -> Result<(), NoMemory>
        ensures ok { OnOk result (self.new ≡ self.old ++ items) }
        ensures err { OnErr result (self.new ≡ self.old) }
    {
        // no memory holds so many items that the count would not do
        let Some(before) = self.rows.len().checked_add(self.others.len()) else {
            return Err(NoMemory);
        };
        let all = self.push_all(items);
        if all.is_err() {
            self.truncate(before);
        }
        all
    }

    // These items come to the end, in order; where there is no memory, maybe some of them did.
    fn push_all(&mut self, items: Items) -> Result<(), NoMemory>
        ensures ok { OnOk result (self.new ≡ self.old ++ items) }
        ensures err { OnErr result (take (length self.old) self.new ≡ self.old) }
    {
        for item in items.into_vec() {
            self.push(item)?;
        }
        Ok(())
    }

    /// The items of another line come to the end, in order, and leave that one, which keeps its
    /// memory. Where there is no memory, nothing is said of the two.
    pub fn take_from(&mut self, other: &mut ItemLine) -> Result<(), NoMemory>
        ensures ok { OnOk result (self.new ≡ self.old ++ other.old) }
        ensures left { OnOk result (other.new ≡ []) }
    {
        self.take_even(&mut other.rows)?;
        self.push_rows(&other.rows)?;
        other.rows.clear();
        self.others.append(&mut other.others)?;
        Ok(())
    }

    // Rows come to the end as values, and leave where they were, where that can be.
    fn take_even(&mut self, rows: &mut EvenRows) -> Result<(), NoMemory>
        ensures { OnOk result (self.new ++ row_items rows.new ≡ self.old ++ row_items rows.old) }
    {
        if self.others.is_empty() {
            self.rows.take_from(rows)?;
        }
        Ok(())
    }

    // These rows come to the end, in order.
    fn push_rows(&mut self, rows: &EvenRows) -> Result<(), NoMemory>
        ensures { OnOk result (self.new ≡ self.old ++ row_items rows.now) }
    {
        for place in 0..rows.len() {
            self.push_values(rows.at(place))?;
        }
        Ok(())
    }

    /// No item is left; the line keeps its memory.
    pub fn clear(&mut self)
        ensures { self.new ≡ [] }
    {
        self.rows.clear();
        self.others.clear();
    }

    // Keeps the first items, at most `count`.
    fn truncate(&mut self, count: usize)
        ensures { self.new ≡ take count self.old }
    {
        let rows = self.rows.len();
        self.others.truncate(count.saturating_sub(rows));
        self.rows.truncate(count);
    }

    /// The item at the front leaves; None where there is none. A line that is empty gives back its
    /// memory, but for a few items.
    pub fn pop(&mut self) -> Option<Item>
        ensures { MatchOption result ((self.old ≡ []) × (self.new ≡ [])) (λ x. self.old ≡ x ∷ self.new) }
    {
        match self.rows.pop() {
            Some(row) => Some(Item::Flat(Flat::One(row))),
            None => pop_other(&mut self.others),
        }
    }

    /// The item at the front leaves, if there is one, as by `pop`.
    pub fn drop_front(&mut self)
        ensures { self.new ≡ drop 1 self.old }
    {
        if self.rows.len() == 0 {
            pop_other(&mut self.others);
        } else {
            self.rows.drop_first();
        }
    }
}

// The item at the front leaves.
fn pop_other(items: &mut VecDeque<Item>) -> Option<Item>
    ensures { MatchOption result ((items.old.items ≡ []) × (items.new.items ≡ [])) (λ x. items.old.items ≡ x ∷ items.new.items) }
{
    let item = items.pop_front();
    if items.is_empty() {
        items.shrink_to(KEPT);
    }
    item
}
