// How many ports, tables and private variables the first of two kernels has.
ghost use Rattle.std.specs.Prelude.{◌≡◌, ◌<◌, length, IfOk};
ghost use Rattle.river_kernels.specs.Kern.{kern_of, fused};
ghost use Rattle.brooklet_model.specs.Fire.{outs, privates};
ghost use Rattle.brooklet_step.specs.Counts.{AreCountsOf};
ghost use Rattle.brooklet_step.specs.Took.{HasLists};

use crate::emit::Emit;
use crate::single::is_leaf;
use crate::state::State;
use river_base::NoMemory;
use river_plan::Kernel;

/// How many output ports, tables and private variables a kernel has.
#[derive(Clone, Copy)]
pub(crate) struct Counts {
    pub(crate) outs: usize,
    pub(crate) tables: usize,
    pub(crate) privates: usize,
}

/// Those of the first of two kernels that have these states and lists. What the second has, where it
/// has no kernel inside, tells them without a walk over the first.
pub(crate) fn first_counts(
    first: &Kernel,
    second: &Kernel,
    at: u32,
    states: &[State],
    out: &Emit,
) -> Result<Counts, NoMemory>
    requires place { at < outs (kern_of first.now) }
    requires states { length states.now ≡ privates (fused (kern_of first.now) (kern_of second.now) at) }
    requires lists { HasLists (fused (kern_of first.now) (kern_of second.now) at) out.now }
    ensures { IfOk result (AreCountsOf (kern_of first.now)) }
{
    if is_leaf(second) {
        let last = second.shape()?;
        if last.outs > 0 {
            return Ok(Counts {
                outs: out.outs.len() - last.outs + 1,
                tables: out.adds.len() - last.tables,
                privates: states.len() - last.privates,
            });
        }
    }
    let shape = first.shape()?;
    Ok(Counts {
        outs: shape.outs,
        tables: shape.tables,
        privates: shape.privates,
    })
}
