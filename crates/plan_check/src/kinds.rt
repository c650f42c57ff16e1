// The types of queues and the kinds of variables, in the order of their names.
ghost use Rattle.std.specs.Prelude.{◌≡◌, ◌++◌, IfOk, OnOk};
ghost use Rattle.river_plan.specs.Forms.{plan_form};
ghost use Rattle.river_plan.specs.Kinds.{table_width};
ghost use Rattle.river_plan.specs.ByPlace.{decl_kinds, table_kinds, private_kinds, queue_kinds, var_kinds};

use kern_tables::TableKind;
use river_base::{Listed, NoMemory, QueueType};
use river_kernels::VarKind;
use river_plan::{Decls, Names, RawPlan, TableDecls};
use std::alloc::Global;

/// The types of the queues: the outputs, the inputs, the others.
pub fn queue_kinds(alloc: Global, raw: &RawPlan) -> Result<Listed<QueueType>, NoMemory>
    ensures { IfOk result (λ kinds. kinds ≡ queue_kinds (plan_form raw.now)) }
{
    let mut kinds = Listed::new(alloc);
    add_decls(&mut kinds, &raw.outputs)?;
    add_decls(&mut kinds, &raw.inputs)?;
    add_decls(&mut kinds, &raw.queues)?;
    Ok(kinds)
}

/// The kinds of the variables: the tables, the others.
pub(crate) fn var_kinds(alloc: Global, raw: &RawPlan) -> Result<Listed<VarKind>, NoMemory>
    ensures { IfOk result (λ kinds. kinds ≡ var_kinds (plan_form raw.now)) }
{
    let mut kinds = Listed::new(alloc);
    add_tables(&mut kinds, &raw.tables)?;
    add_private(&mut kinds, &raw.vars)?;
    Ok(kinds)
}

// Appends the types of these queues.
fn add_decls(kinds: &mut Listed<QueueType>, decls: &Decls) -> Result<(), NoMemory>
    ensures { OnOk result (kinds.new ≡ kinds.old ++ decl_kinds decls.now) }
{
    for decl in decls.as_slice() {
        kinds.push(decl.kind)?;
    }
    Ok(())
}

// Appends the kinds of these tables.
fn add_tables(kinds: &mut Listed<VarKind>, tables: &TableDecls) -> Result<(), NoMemory>
    ensures { OnOk result (kinds.new ≡ kinds.old ++ table_kinds tables.now) }
{
    for table in tables.as_slice() {
        kinds.push(VarKind::Table(table_width(table.kind)))?;
    }
    Ok(())
}

// Appends the kinds of these private variables.
fn add_private(kinds: &mut Listed<VarKind>, vars: &Names) -> Result<(), NoMemory>
    ensures { OnOk result (kinds.new ≡ kinds.old ++ private_kinds vars.now) }
{
    for _name in vars.as_slice() {
        kinds.push(VarKind::Private)?;
    }
    Ok(())
}

// How many values a row of a table has.
fn table_width(kind: TableKind) -> u64
    ensures { result ≡ table_width kind }
{
    match kind {
        TableKind::Sum { keys } => keys as u64 + 1,
        TableKind::Collection { keys } => keys as u64 + 1,
        TableKind::Maximum { keys, .. } => keys as u64 + 2,
    }
}
