// The lists of plans that are changed.
ghost use Rattle.std.specs.Prelude.{◌≡◌, IfOk};

use river_base::{Duplicate, NoMemory};
use river_plan::{Decls, RawPlan, TableDecls};
use std::alloc::Global;

/// Copies of the lists that the outside sees: the outputs, the inputs and the tables.
pub fn outer_lists(alloc: Global, raw: &RawPlan) -> Result<(Decls, Decls, TableDecls), NoMemory>
    ensures { IfOk result (λ kept. (kept.0 ≡ raw.now.outputs) × ((kept.1 ≡ raw.now.inputs) × (kept.2 ≡ raw.now.tables))) }
{
    let outputs = raw.outputs.copy(alloc)?;
    let inputs = raw.inputs.copy(alloc)?;
    let tables = raw.tables.copy(alloc)?;
    Ok((outputs, inputs, tables))
}
