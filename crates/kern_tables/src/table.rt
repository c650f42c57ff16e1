// Tables.
ghost use Rattle.std.specs.Prelude.{◌≡◌, ◌≤◌, ◌+◌, ◌++◌, [], take, length, IfOk, OnOk, OnErr, All, vec_capacity};
ghost use Rattle.kern_tables.specs.Kept.{kept_of, with_row, added_all, shown, rows_of, kind_of_table, width_of_table};

use crate::{Aggregate, Maxima, Sums, TableKind};
use river_base::{Duplicate, NoMemory, Row, Rows};
use std::alloc::Global;
use std::marker::Model;

/// A table, which contracts see as what stands at each key. Rows that were added where there was no memory to place them wait;
/// while some do, the table answers every call with want of memory.
#[derive(Drop)]
pub struct Table {
    kept: Aggregate,
    waiting: Vec<Row>,
}

impl Model for Table {
    ghost use Rattle.kern_tables.specs.declared.kept.Aggregate as kept_type;

    ghost Value = { kept_type.Aggregate };

    ghost use Rattle.kern_tables.specs.Kept.{shown, added_all};

    ghost view = { λ t. added_all (shown t.kept) t.waiting.items };
}

impl Table {
    /// A table to which nothing was added.
    pub fn new(alloc: Global, kind: TableKind) -> Table
        ensures { result ≡ kept_of kind [] }
    {
        let kept = match kind {
            TableKind::Sum { keys } => Aggregate::Sums {
                keys,
                sums: Sums::new(alloc),
            },
            TableKind::Collection { keys } => Aggregate::Rows {
                keys,
                rows: Rows::new(alloc),
            },
            TableKind::Maximum { best, keys } => Aggregate::Maxima {
                best,
                keys,
                maxima: Maxima::new(alloc),
            },
        };
        Table {
            kept,
            waiting: Vec::new(alloc),
        }
    }

    /// One more row; changes nothing where there is no memory.
    pub fn add(&mut self, row: &Row) -> Result<(), NoMemory>
        requires { length row.now ≡ width_of_table self.old }
        ensures ok { OnOk result (self.new ≡ with_row self.old row.now) }
        ensures err { OnErr result (self.new ≡ self.old) }
        ensures kind { kind_of_table self.new ≡ kind_of_table self.old }
    {
        if !self.waiting.is_empty() {
            return Err(NoMemory);
        }
        place(&mut self.kept, row)
    }

    /// These rows, one after another; changes nothing where there is no memory for the list of them.
    #[tactic(auto, using(crate::proofs::Tabs::added_in_two, crate::proofs::Tabs::added_all_kind))]
    pub fn add_all(&mut self, rows: &[Row]) -> Result<(), NoMemory>
        requires { All (λ row. length row ≡ width_of_table self.old) rows.now }
        ensures ok { OnOk result (self.new ≡ added_all self.old rows.now) }
        ensures err { OnErr result (self.new ≡ self.old) }
        ensures kind { kind_of_table self.new ≡ kind_of_table self.old }
    {
        if !self.waiting.is_empty() {
            return Err(NoMemory);
        }
        self.waiting.reserve(rows.len())?;
        let placed = place_some(&mut self.kept, rows);
        wait(&mut self.waiting, &rows[placed..]);
        Ok(())
    }

    /// The rows, in the order in which they are printed.
    pub fn rows(&self, alloc: Global) -> Result<Rows, NoMemory>
        ensures { IfOk result (λ rows. rows ≡ rows_of self.now) }
    {
        if !self.waiting.is_empty() {
            return Err(NoMemory);
        }
        match &self.kept {
            Aggregate::Sums { sums, .. } => sums.rows(alloc),
            Aggregate::Rows { rows, .. } => {
                let mut all = rows.copy(alloc)?;
                all.sort()?;
                Ok(all)
            }
            Aggregate::Maxima { maxima, .. } => maxima.rows(alloc),
        }
    }
}

// One more row, in place; changes nothing where there is no memory.
#[tactic(auto, using(crate::proofs::Tabs::in_order_more, crate::proofs::Tabs::added_kind))]
fn place(kept: &mut Aggregate, row: &Row) -> Result<(), NoMemory>
    requires { length row.now ≡ width_of_table (shown kept.old) }
    ensures ok { OnOk result (shown kept.new ≡ with_row (shown kept.old) row.now) }
    ensures err { OnErr result (shown kept.new ≡ shown kept.old) }
    ensures kind { kind_of_table (shown kept.new) ≡ kind_of_table (shown kept.old) }
{
    match kept {
        Aggregate::Sums { keys, sums } => sums.add(*keys as usize, row),
        Aggregate::Rows { rows, .. } => rows.push(*row),
        Aggregate::Maxima { best, keys, maxima } => maxima.add(*best as usize, *keys as usize, row),
    }
}

// Places rows, up to the first that there is no memory for; answers how many.
#[tactic(auto, using(crate::proofs::Tabs::added_kind, crate::proofs::Tabs::added_more))]
fn place_some(kept: &mut Aggregate, rows: &[Row]) -> usize
    requires { All (λ row. length row ≡ width_of_table (shown kept.old)) rows.now }
    ensures at_most { result ≤ length rows.now }
    ensures rows { shown kept.new ≡ added_all (shown kept.old) (take result rows.now) }
    ensures kind { kind_of_table (shown kept.new) ≡ kind_of_table (shown kept.old) }
{
    for i in 0..rows.len() {
        if place(kept, &rows[i]).is_err() {
            return i;
        }
    }
    rows.len()
}

// Puts rows behind those that wait, for which there is room.
fn wait(waiting: &mut Vec<Row>, rows: &[Row])
    requires { length waiting.old.items + length rows.now ≤ vec_capacity waiting.old }
    ensures { waiting.new.items ≡ waiting.old.items ++ rows.now }
{
    for row in rows {
        waiting.push_reserved(*row);
    }
}
