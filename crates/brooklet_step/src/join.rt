// One firing of a product with a selection behind it.
ghost use Rattle.std.specs.Prelude.{◌≡◌, ◌<◌, [], ◌∷◌, length, IsTrue, IfOk, OnOk};
ghost use Rattle.work_code.specs.Term.{term};
ghost use Rattle.river_kernels.specs.Kern.{kern_of, cross as cross_kern, fused as fused_kern};
ghost use Rattle.brooklet_step.specs.declared.emit.Emit.{Emit};
ghost use Rattle.brooklet_step.specs.Given.{CanTake, FiresAt};
ghost use Rattle.brooklet_step.specs.Joins.{one_port, BeginsWithSelection, CanKeep, IsSelection, IsJoin, IsNestedJoin, KeptPairs};

use crate::bag::flat_of;
use crate::emit::{Emit, Spare};
use crate::state::State;
use kern_bags::Cross;
use river_base::{Item, NoMemory};
use river_plan::Kernel;
use std::alloc::Global;
use work_code::Formula;

/// Whether two kernels, the second behind the first, are a product and a selection.
pub(crate) fn is_join(first: &Kernel, second: &Kernel) -> bool
    ensures { IsTrue result → IsJoin first.now second.now }
{
    match first {
        Kernel::Cross => is_selection(second),
        _ => false,
    }
}

/// Whether two kernels, the second behind the first, are a product and two as one of which the
/// first is a selection.
pub(crate) fn is_nested_join(first: &Kernel, second: &Kernel) -> bool
    ensures { IsTrue result → IsNestedJoin first.now second.now }
{
    match first {
        Kernel::Cross => begins_with_selection(second),
        _ => false,
    }
}

fn is_selection(kernel: &Kernel) -> bool
    ensures { IsTrue result → IsSelection kernel.now }
{
    match kernel {
        Kernel::Select(_) => true,
        _ => false,
    }
}

fn begins_with_selection(kernel: &Kernel) -> bool
    ensures { IsTrue result → BeginsWithSelection kernel.now }
{
    match kernel {
        Kernel::Fused { first, .. } => is_selection(first),
        _ => false,
    }
}

/// A firing of a product with this selection behind it, of which no pair is made that the selection
/// does not keep.
pub(crate) fn fire_join(
    alloc: Global,
    second: &Kernel,
    at: u32,
    port: u32,
    item: Item,
    states: &mut [State],
    out: &mut Emit,
    spare: &mut Spare,
) -> Result<(), NoMemory>
    requires selection { IsSelection second.now }
    requires can { CanTake (fused_kern cross_kern (kern_of second.now) at) port item states.old out.old }
    ensures { OnOk result (FiresAt (fused_kern cross_kern (kern_of second.now) at) port item out.old out.new states.old states.new) }
{
    match second {
        Kernel::Select(cond) => give_pairs(alloc, cond, port, item, &mut states[0], out, spare),
        _ => unreachable!(),
    }
}

/// What a product with a selection behind it gives, in lists of its own.
pub(crate) fn kept_pairs(
    alloc: Global,
    cond: &Formula,
    port: u32,
    item: Item,
    state: &mut State,
    spare: &mut Spare,
) -> Result<Emit, NoMemory>
    requires { CanKeep (term cond.now) port item state.old }
    ensures { IfOk result (λ given. KeptPairs (term cond.now) port item (one_port []) given state.old state.new) }
{
    let mut given = Emit::blank(alloc, 1, 0)?;
    give_pairs(alloc, cond, port, item, state, &mut given, spare)?;
    Ok(given)
}

// Of each change that a product gives, what the condition keeps, at the first port.
fn give_pairs(
    alloc: Global,
    cond: &Formula,
    port: u32,
    item: Item,
    state: &mut State,
    out: &mut Emit,
    spare: &mut Spare,
) -> Result<(), NoMemory>
    requires can { CanKeep (term cond.now) port item state.old }
    requires room { 0 < length out.old.outs }
    ensures { OnOk result (KeptPairs (term cond.now) port item out.old out.new state.old state.new) }
{
    match state {
        State::Cross(rows) => {
            let mut items = spare.take_items(alloc);
            Cross::step_where(alloc, cond, rows, port, flat_of(item), &mut items)?;
            out.give_all(0, items, spare)
        }
        _ => unreachable!(),
    }
}
