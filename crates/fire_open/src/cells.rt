// The cells of the lock classes.
ghost use Rattle.std.specs.Prelude.{◌≡◌, ◌≤◌, ◌+◌, ◌++◌, ◌∷◌, [], ◌==◌, if◌then◌else◌, All, IfOk, OnOk, length, slice_index_or};
ghost use Rattle.river_plan.specs.Valid.{IsPlan};
ghost use Rattle.fire_open.specs.Homes.{AreByFirst, AreTableClasses, AreClassCells, IsClassCount, kinds_from};

use crate::homes::TableNumbers;
use class_locks::{Cell, Cells, TableKinds};
use kern_tables::TableKind;
use river_base::NoMemory;
use river_plan::{Plan, TableDecls};
use std::alloc::Global;

// How many classes there are: classes are numbered by their first table.
fn class_count(classes: &TableNumbers) -> u32
    requires first { AreByFirst classes.now }
    requires few { length classes.now ≤ 256 }
    ensures { IsClassCount classes.now result }
{
    let mut count = 0;
    for class in classes.as_slice() {
        count = counted(count, *class);
    }
    count
}

// One more, where the class is new.
fn counted(count: u32, class: u32) -> u32
    requires { count ≤ 256 }
    ensures { result ≡ (if class == count then count + 1 else count) }
{
    if class == count { count + 1 } else { count }
}

// The tables of a class, each with its number and its kind.
fn kinds_of(
    alloc: Global,
    tables: &TableDecls,
    classes: &TableNumbers,
    class: u32,
) -> Result<TableKinds, NoMemory>
    requires many { length classes.now ≡ length tables.now }
    requires few { length tables.now ≤ 256 }
    ensures { IfOk result (λ kinds. kinds ≡ kinds_from (λ n. slice_index_or classes.now n 0) class 0 tables.now) }
{
    let mut kinds = TableKinds::new(alloc);
    for table in 0..tables.len() {
        let of = *classes.at(table);
        let decl = tables.at(table);
        add_kind(of == class, table as u32, decl.kind, &mut kinds)?;
    }
    Ok(kinds)
}

// The table comes to the others, if it is of the class.
fn add_kind(
    is_here: bool,
    table: u32,
    kind: TableKind,
    kinds: &mut TableKinds,
) -> Result<(), NoMemory>
    ensures { OnOk result (kinds.new ≡ kinds.old ++ (if is_here then (table, kind) ∷ [] else [])) }
{
    if is_here {
        kinds.push((table, kind))?;
    }
    Ok(())
}

// An empty cell with the tables of a class.
fn empty_cell(
    alloc: Global,
    tables: &TableDecls,
    classes: &TableNumbers,
    class: u32,
) -> Result<Cell, NoMemory>
    requires many { length classes.now ≡ length tables.now }
    requires few { length tables.now ≤ 256 }
    ensures { IfOk result (λ cell. cell ≡ record { kinds = kinds_from (λ n. slice_index_or classes.now n 0) class 0 tables.now; log = [] }) }
{
    let kinds = kinds_of(alloc, tables, classes, class)?;
    Cell::empty(alloc, &kinds)
}

/// An empty cell for each lock class of a plan, in order.
pub fn cells_of(alloc: Global, plan: &Plan, classes: &TableNumbers) -> Result<Cells, NoMemory>
    requires valid { IsPlan plan.now }
    requires classes { AreTableClasses plan.now classes.now }
    ensures cells { IfOk result (AreClassCells plan.now) }
    ensures empty { IfOk result (All (λ x. x.log ≡ [])) }
{
    let tables = &plan.raw().tables;
    let mut cells = Cells::new(alloc);
    for class in 0..class_count(classes) {
        cells.push(empty_cell(alloc, tables, classes, class)?)?;
    }
    Ok(cells)
}
