// The queues and tables of a plan before the first firing.
ghost use Rattle.std.specs.Prelude.{◌≡◌, ◌++◌, [], length, replicate, IfOk, OnOk};
ghost use Rattle.brooklet_step.specs.Tables.{kept_tables};

use crate::parts::{Lines, Tables};
use kern_rows::ItemLine;
use kern_tables::Table;
use river_base::NoMemory;
use river_plan::{RawPlan, TableDecls};
use std::alloc::Global;

/// The first queues of a plan: the inputs' items move there, and the others are empty.
pub fn first_queues(alloc: Global, raw: &RawPlan, inputs: Lines) -> Result<Lines, NoMemory>
    ensures { IfOk result (λ queues. queues ≡ replicate (length raw.now.outputs) [] ++ (inputs ++ replicate (length raw.now.queues) [])) }
{
    let mut queues = Lines::new(alloc);
    add_empty(alloc, &mut queues, raw.outputs.len())?;
    queues.append(inputs)?;
    add_empty(alloc, &mut queues, raw.queues.len())?;
    Ok(queues)
}

/// So many empty queues more.
pub(crate) fn add_empty(alloc: Global, queues: &mut Lines, count: usize) -> Result<(), NoMemory>
    ensures { OnOk result (queues.new ≡ queues.old ++ replicate count []) }
{
    for _i in 0..count {
        queues.push(ItemLine::new(alloc))?;
    }
    Ok(())
}

/// The tables, to which nothing was added.
#[tactic(auto, using(work_code::proofs::Lists::copies))]
pub fn first_tables(alloc: Global, decls: &TableDecls) -> Result<Tables, NoMemory>
    ensures { IfOk result (λ tables. tables ≡ kept_tables decls.now (λ name. [])) }
{
    let mut tables = Tables::new(alloc);
    for decl in decls.as_slice() {
        tables.push(Table::new(alloc, decl.kind))?;
    }
    Ok(tables)
}
