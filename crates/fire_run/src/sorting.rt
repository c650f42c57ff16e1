// The tables and the logs of the cells of a net.
ghost use Rattle.std.specs.Prelude.{◌≡◌, ◌≢◌, ◌∷◌, ◌++◌, ◌<◌, ℕ, [], length, map, slice_index_or, IfOk, OnOk};
ghost use Rattle.river_plan.specs.Valid.{IsPlan};
ghost use Rattle.class_locks.specs.Logs.{replay};
ghost use Rattle.fire_tasks.specs.Adds.{logs_of, table_class};
ghost use Rattle.fire_open.specs.Homes.{AreClassCells};
ghost use Rattle.fire_run.specs.Closed.{AreInClassLists, ArePlaced, tables_at};

use crate::closing::Logs;
use brooklet_step::{Tables, first_tables};
use class_locks::{Cell, Cells};
use fire_open::{TableNumbers, table_classes};
use kern_tables::Table;
use river_base::{Listed, NoMemory};
use river_plan::{Plan, TableDecls};
use std::alloc::Global;

/// The tables of each class, in the order of their numbers.
type TableLists = Listed<Vec<Table>>;

// The tables of each cell, and its log.
fn opened(alloc: Global, cells: Cells) -> Result<(TableLists, Logs), NoMemory>
    ensures tables { IfOk result (λ both. map (λ l. l.items) both.0 ≡ map (λ x. map (replay x.log) x.kinds) cells) }
    ensures logs { IfOk result (λ both. map (λ l. l.items) both.1 ≡ map (λ x. x.log) cells) }
{
    let mut tables = TableLists::new(alloc);
    let mut logs = Logs::new(alloc);
    for cell in cells.into_vec() {
        add_parts(cell, &mut tables, &mut logs)?;
    }
    Ok((tables, logs))
}

// The tables of a cell and its log come to those of the others.
fn add_parts(cell: Cell, tables: &mut TableLists, logs: &mut Logs) -> Result<(), NoMemory>
    ensures tables { OnOk result (map (λ l. l.items) tables.new ≡ map (λ l. l.items) tables.old ++ map (replay cell.log) cell.kinds ∷ []) }
    ensures logs { OnOk result (map (λ l. l.items) logs.new ≡ map (λ l. l.items) logs.old ++ cell.log ∷ []) }
{
    let (own, log) = cell.into_parts();
    tables.push(own)?;
    logs.push(log)?;
    Ok(())
}

// The last table of a class; it is taken out.
fn take_last(lists: &mut TableLists, class: usize) -> Table
    requires there { class < length lists.old }
    requires some { tables_at lists.old class ≡ [] → ⊥ }
    ensures many { length lists.new ≡ length lists.old }
    ensures last { tables_at lists.old class ≡ tables_at lists.new class ++ result ∷ [] }
    ensures others { (c : ℕ) → c ≢ class → tables_at lists.new c ≡ tables_at lists.old c }
{
    match lists.at_mut(class).pop() {
        Some(table) => table,
        None => unreachable!(),
    }
}

// The tables go from the lists of their classes to their places, the last first.
fn place_all(
    decls: &TableDecls,
    classes: &TableNumbers,
    lists: &mut TableLists,
    tables: &mut Tables,
)
    requires many { length tables.old ≡ length decls.now }
    requires classes { length classes.now ≡ length decls.now }
    requires sorted { (logs : _) × AreInClassLists (λ n. slice_index_or classes.now n 0) logs decls.now lists.old }
    ensures { (logs : _) → AreInClassLists (λ n. slice_index_or classes.now n 0) logs decls.now lists.old
        → ArePlaced (λ n. slice_index_or classes.now n 0) logs 0 decls.now tables.new }
{
    let count = decls.len();
    for back in 0..count {
        let place = count - 1 - back;
        let class = *classes.at(place);
        *tables.at_mut(place) = take_last(lists, class as usize);
    }
}

// The tables, from their lists.
fn in_order(
    alloc: Global,
    plan: &Plan,
    decls: &TableDecls,
    lists: &mut TableLists,
) -> Result<Tables, NoMemory>
    requires decls { decls.now ≡ plan.now.tables }
    requires sorted { (logs : _) × AreInClassLists (table_class plan.now) logs plan.now.tables lists.old }
    ensures { (logs : _) → AreInClassLists (table_class plan.now) logs plan.now.tables lists.old
        → IfOk result (ArePlaced (table_class plan.now) logs 0 plan.now.tables) }
{
    let classes = table_classes(alloc, plan)?;
    let mut tables = first_tables(alloc, decls)?;
    place_all(decls, &classes, lists, &mut tables);
    Ok(tables)
}

/// The tables of the cells of a plan, in the order of the plan, and the logs of the cells.
pub(crate) fn kept_in(alloc: Global, plan: &Plan, cells: Cells) -> Result<(Tables, Logs), NoMemory>
    requires { AreClassCells plan.now cells }
    ensures valid { IsPlan plan.now }
    ensures tables { IfOk result (λ both. ArePlaced (table_class plan.now) (logs_of cells) 0 plan.now.tables both.0) }
    ensures logs { IfOk result (λ both. map (λ l. l.items) both.1 ≡ map (λ x. x.log) cells) }
{
    let decls = &plan.raw().tables;
    let (mut lists, logs) = opened(alloc, cells)?;
    let tables = in_order(alloc, plan, decls, &mut lists)?;
    Ok((tables, logs))
}
