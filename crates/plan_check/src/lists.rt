// The names in the lists of a plan.
ghost use Rattle.std.specs.Prelude.{◌≡◌, ◌++◌, IfOk, OnOk};
ghost use Rattle.river_plan.specs.Forms.{plan_form, op_forms, decl_names, table_names, labels, queue_names, variable_names};

use river_base::NoMemory;
use river_plan::{Decls, Names, Ops, RawPlan, TableDecls};
use std::alloc::Global;

/// The names of the queues: the outputs, the inputs, the others.
pub(crate) fn queue_names(alloc: Global, raw: &RawPlan) -> Result<Names, NoMemory>
    ensures { IfOk result (λ names. names ≡ queue_names (plan_form raw.now)) }
{
    let mut names = Names::new(alloc);
    add_decls(&mut names, &raw.outputs)?;
    add_decls(&mut names, &raw.inputs)?;
    add_decls(&mut names, &raw.queues)?;
    Ok(names)
}

/// The names of the variables: the tables, the others.
pub(crate) fn variable_names(alloc: Global, raw: &RawPlan) -> Result<Names, NoMemory>
    ensures { IfOk result (λ names. names ≡ variable_names (plan_form raw.now)) }
{
    let mut names = Names::new(alloc);
    add_tables(&mut names, &raw.tables)?;
    add_names(&mut names, &raw.vars)?;
    Ok(names)
}

/// The labels of the operators.
pub(crate) fn labels(alloc: Global, ops: &Ops) -> Result<Names, NoMemory>
    ensures { IfOk result (λ names. names ≡ labels (op_forms ops.now)) }
{
    let mut names = Names::new(alloc);
    for op in ops.as_slice() {
        names.push(op.label)?;
    }
    Ok(names)
}

// Appends the names of these declarations.
fn add_decls(names: &mut Names, decls: &Decls) -> Result<(), NoMemory>
    ensures { OnOk result (names.new ≡ names.old ++ decl_names decls.now) }
{
    for decl in decls.as_slice() {
        names.push(decl.name)?;
    }
    Ok(())
}

// Appends the names of these tables.
fn add_tables(names: &mut Names, tables: &TableDecls) -> Result<(), NoMemory>
    ensures { OnOk result (names.new ≡ names.old ++ table_names tables.now) }
{
    for table in tables.as_slice() {
        names.push(table.name)?;
    }
    Ok(())
}

// Appends these names.
fn add_names(names: &mut Names, more: &Names) -> Result<(), NoMemory>
    ensures { OnOk result (names.new ≡ names.old ++ more.now) }
{
    for name in more.as_slice() {
        names.push(*name)?;
    }
    Ok(())
}
