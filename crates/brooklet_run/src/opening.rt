// A machine before its first firing.
ghost use Rattle.std.specs.Prelude.{◌≡◌, length, replicate, IfOk};
ghost use Rattle.river_plan.specs.Forms.{op_forms};
ghost use Rattle.brooklet_model.specs.Fit.{Fit};
ghost use Rattle.brooklet_step.specs.Works.{IsRunning, Starts};
ghost use Rattle.brooklet_step.specs.Initial.{AreFirst, CanStart};

use crate::Inputs;
use brooklet_step::{Lines, MachineState, Sizes, States, first_queues, first_tables, states_of};
use kern_rows::ItemLine;
use river_base::{Listed, NoMemory};
use river_plan::{Ops, Plan};
use std::alloc::Global;

/// What a machine keeps before the first firing.
pub(crate) fn first_parts(
    alloc: Global,
    plan: &Plan,
    inputs: Lines,
) -> Result<MachineState, NoMemory>
    requires { Fit plan.now inputs }
    ensures starts { IfOk result (λ parts. Starts plan.now inputs parts) }
    ensures goes_on { IfOk result IsRunning }
{
    let raw = plan.raw();
    let queues = first_queues(alloc, raw, inputs)?;
    let (states, counts) = states_and_counts(alloc, &raw.ops)?;
    let tables = first_tables(alloc, &raw.tables)?;
    let plan = plan.copy(alloc)?;
    Ok(MachineState {
        plan,
        queues,
        tables,
        states,
        counts,
        stopped: false,
    })
}

/// The items of each input, in lines.
pub(crate) fn lines_of(alloc: Global, inputs: Inputs) -> Result<Lines, NoMemory>
    ensures { IfOk result (λ lines. lines ≡ inputs) }
{
    let mut lines = Lines::new(alloc);
    for items in inputs.into_vec() {
        lines.push(ItemLine::from_items(alloc, items))?;
    }
    Ok(lines)
}

// The first states of the operators, and that none has fired.
fn states_and_counts(alloc: Global, ops: &Ops) -> Result<(Listed<States>, Sizes), NoMemory>
    requires { CanStart (op_forms ops.now) }
    ensures states { IfOk result (λ both. AreFirst (op_forms ops.now) both.0) }
    ensures counts { IfOk result (λ both. both.1 ≡ replicate (length ops.now) 0) }
{
    let states = all_states(alloc, ops)?;
    let counts = zeros(alloc, ops.len())?;
    Ok((states, counts))
}

// So many zeros.
fn zeros(alloc: Global, count: usize) -> Result<Sizes, NoMemory>
    ensures { IfOk result (λ all. all ≡ replicate count 0) }
{
    let mut all = Sizes::new(alloc);
    for _i in 0..count {
        all.push(0)?;
    }
    Ok(all)
}

// The first states of each operator.
fn all_states(alloc: Global, ops: &Ops) -> Result<Listed<States>, NoMemory>
    requires { CanStart (op_forms ops.now) }
    ensures { IfOk result (AreFirst (op_forms ops.now)) }
{
    let mut all = Listed::new(alloc);
    for op in ops.as_slice() {
        let states = states_of(alloc, &op.kernel)?;
        all.push(states)?;
    }
    Ok(all)
}
