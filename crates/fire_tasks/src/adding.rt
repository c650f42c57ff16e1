// The rows of a firing go to the cells of their tables: to those of a pile, or to all cells of a net.
ghost use Rattle.std.specs.Prelude.{◌≡◌, ◌<◌, [], length, replicate, Some, IfOk, OnOk, OnErr, slice_get, slice_set, slice_index_or};
ghost use Rattle.std.specs.List.Sorted.{IsStrictlyIncreasing};
ghost use Rattle.river_base.specs.Places.{list_at};
ghost use Rattle.class_locks.specs.Logs.{Holding, TakesRows};
ghost use Rattle.class_locks.specs.Piles.{Piled};
ghost use Rattle.fire_tasks.specs.Rows.{CanAddTo, cell_grown, cells_grown, cells_with_rows};
ghost use Rattle.fire_tasks.specs.Turns.{HasCells, HaveGained, classes_of, pile_grown, logged, cell_with_rows, without_rows};

use crate::{TablePort, Task};
use brooklet_step::RowLists;
use class_locks::{Cell, Cells, Pile};
use river_base::{Listed, NoMemory, Row, Rows};
use std::alloc::Global;

// TO THE CELLS OF A PILE

/// Adds the rows of a firing of an operator to the cells of its tables: an entry for each table with rows. The lists of rows are empty
/// afterwards; where there is no memory some may be added.
pub(crate) fn add_rows(
    alloc: Global,
    op: u32,
    tables: &Listed<TablePort>,
    adds: &mut RowLists,
    pile: &mut Pile,
) -> Result<(), NoMemory>
    requires ascend { IsStrictlyIncreasing (classes_of pile.old.items) }
    requires many { length adds.old ≡ length tables.now }
    requires can { HasCells tables.now (list_at adds.old) pile.old.items }
    ensures gained { HaveGained op pile.old.items pile.new.items }
    ensures logged { OnOk result (pile.new.items ≡ pile_grown (logged op (classes_of pile.old.items) tables.now (list_at adds.old)) pile.old.items) }
    ensures blank { OnOk result (adds.new ≡ replicate (length adds.old) []) }
{
    for port in 0..tables.len() {
        add_at(alloc, op, *tables.at(port), adds.at_mut(port), pile)?;
    }
    Ok(())
}

// Adds rows to a table, where there are any; none is left in the list.
fn add_at(
    alloc: Global,
    op: u32,
    to: TablePort,
    rows: &mut Rows,
    pile: &mut Pile,
) -> Result<(), NoMemory>
    requires { (x : Piled) × (slice_get pile.old.items to.place ≡ Some x) × TakesRows x.1.kinds to.table rows.old }
    ensures ok { (x : Piled) → slice_get pile.old.items to.place ≡ Some x
        → OnOk result (pile.new.items ≡ slice_set pile.old.items to.place (cell_with_rows op to.table rows.old x)) }
    ensures blank { OnOk result (rows.new ≡ []) }
    ensures err { OnErr result (pile.new.items ≡ pile.old.items) }
{
    let at = &mut pile[to.place];
    add_to_cell(op, to.table, rows, &mut at.1)
}

// TO THE CELLS OF A NET

impl Task {
    /// Adds the rows of the last firing to the cells of the task's tables, of all classes: an entry for each table with rows. The lists
    /// of rows are empty afterwards; where there is no memory some may be added.
    pub fn add_to_cells(&mut self, alloc: Global, cells: &mut Cells) -> Result<(), NoMemory>
        requires many { length self.old.out.adds ≡ length self.old.tables }
        requires can { CanAddTo self.old.tables self.old.classes (list_at self.old.out.adds) cells.old }
        ensures logged { OnOk result (cells.new ≡ cells_grown (logged self.old.op self.old.classes self.old.tables (list_at self.old.out.adds)) 0 cells.old) }
        ensures blank { OnOk result (self.new ≡ without_rows self.old) }
    {
        add_to_each(
            alloc,
            self.op,
            &self.tables,
            &self.classes,
            &mut self.out.adds,
            cells,
        )?;
        Ok(())
    }
}

// Adds the rows of a firing of an operator to the cells of its tables. The lists of rows are empty afterwards.
fn add_to_each(
    alloc: Global,
    op: u32,
    tables: &Listed<TablePort>,
    classes: &Listed<u32>,
    adds: &mut RowLists,
    cells: &mut Cells,
) -> Result<(), NoMemory>
    requires many { length adds.old ≡ length tables.now }
    requires can { CanAddTo tables.now classes.now (list_at adds.old) cells.old }
    ensures logged { OnOk result (cells.new ≡ cells_grown (logged op classes.now tables.now (list_at adds.old)) 0 cells.old) }
    ensures blank { OnOk result (adds.new ≡ replicate (length adds.old) []) }
{
    for port in 0..tables.len() {
        let to = *tables.at(port);
        let class = *classes.at(to.place);
        add_in(
            alloc,
            op,
            to.table,
            class as usize,
            adds.at_mut(port),
            cells,
        )?;
    }
    Ok(())
}

// Adds rows to a table of a class, where there are any; none is left in the list.
fn add_in(
    alloc: Global,
    op: u32,
    table: u32,
    class: usize,
    rows: &mut Rows,
    cells: &mut Cells,
) -> Result<(), NoMemory>
    requires there { class < length cells.old }
    requires takes { (d : Holding) → TakesRows (slice_index_or cells.old class d).kinds table rows.old }
    ensures ok { OnOk result (cells.new ≡ cells_with_rows op table class rows.old cells.old) }
    ensures blank { OnOk result (rows.new ≡ []) }
{
    add_to_cell(op, table, rows, cells.at_mut(class))
}

// TO ONE CELL

// Adds rows to a table of a cell: an entry, where there are any. None is left in the list, which keeps its memory.
fn add_to_cell(op: u32, table: u32, rows: &mut Rows, cell: &mut Cell) -> Result<(), NoMemory>
    requires { TakesRows cell.old.kinds table rows.old }
    ensures ok { OnOk result (cell.new ≡ cell_grown op table rows.old cell.old) }
    ensures blank { OnOk result (rows.new ≡ []) }
    ensures err { OnErr result (cell.new ≡ cell.old) }
{
    if rows.is_empty() {
        return Ok(());
    }
    put_entry(op, table, rows.as_slice(), cell)?;
    rows.truncate(0);
    Ok(())
}

// Adds rows to a table of a cell, as an entry.
fn put_entry(op: u32, table: u32, rows: &[Row], cell: &mut Cell) -> Result<(), NoMemory>
    requires some { rows.now ≡ [] → ⊥ }
    requires takes { TakesRows cell.old.kinds table rows.now }
    ensures ok { OnOk result (cell.new ≡ cell_grown op table rows.now cell.old) }
    ensures err { OnErr result (cell.new ≡ cell.old) }
{
    cell.add(op, table, rows)
}
