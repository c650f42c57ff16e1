// Plans from texts, inputs from rows, and machines that are driven.
ghost use Rattle.std.specs.Prelude.{◌≡◌, false, OnOk};

use crate::plans::Lists;
use brooklet_run::{Inputs, Machine, fits};
use brooklet_step::Outcome;
use csv_streams::print_outcome;
use river_base::{Bytes, Flat, Item, Items, NoMemory, Row};
use river_plan::Plan;
use river_text::compile_river;
use std::alloc::Global;

// How many choices a machine is driven by: far more than there can be firings.
const CHOICES: u32 = 5_000;

/// Why a plan did not come to what is printed of it.
#[derive(Clone, Copy, Debug)]
pub(crate) enum Broken {
    /// There was no memory.
    NoMemory,
    /// The text is no plan.
    Text,
    /// The inputs do not fit.
    Inputs,
    /// An operator is enabled otherwise than it was to be.
    Enabled,
    /// A firing was refused.
    Stopped,
    /// There is another number of lists than the plan has.
    Lists,
    /// Another text is printed.
    Printed,
}

impl From<NoMemory> for Broken {
    fn from(_: NoMemory) -> Self {
        Broken::NoMemory
    }
}

/// An operator, one of its ports, and whether it is enabled there: if so it is fired, otherwise passed over.
pub(crate) type Step = (u32, u32, bool);

/// How a machine is driven.
#[derive(Clone, Copy)]
pub(crate) enum Drive<'a> {
    /// By these steps, in their order.
    By(&'a [Step]),
    /// By firings of the first twelve operators at their first two ports, as the seed has it.
    At(u64),
}

// The plan of a River text.
fn plan_of(alloc: Global, text: &[u8]) -> Result<Plan, Broken> {
    let text = Bytes::from_slice(alloc, text)?;
    if text.len() > 100_000 {
        return Err(Broken::Text);
    }
    match compile_river(alloc, &text) {
        Ok(read) => Ok(read.plan),
        Err(_) => Err(Broken::Text),
    }
}

fn item_of(values: &[i64]) -> Result<Item, Broken> {
    if values.is_empty() || values.len() > 16 {
        return Err(Broken::Inputs);
    }
    Ok(Item::Flat(Flat::One(Row::from_slice(values))))
}

// Rows as items.
fn items_of(alloc: Global, rows: &[&[i64]]) -> Result<Items, Broken> {
    let mut items = Items::new(alloc);
    for values in rows {
        items.push(item_of(values)?)?;
    }
    Ok(items)
}

// The items of each input.
fn inputs_of(alloc: Global, lists: Lists<'_>) -> Result<Inputs, Broken> {
    let mut inputs = Inputs::new(alloc);
    for rows in lists {
        inputs.push(items_of(alloc, rows)?)?;
    }
    Ok(inputs)
}

/// Whether the inputs fit the plan of a text.
pub(crate) fn fit(alloc: Global, text: &[u8], lists: Lists<'_>) -> Result<bool, Broken> {
    let plan = plan_of(alloc, text)?;
    fit_into(alloc, &plan, lists)
}

fn fit_into(alloc: Global, plan: &Plan, lists: Lists<'_>) -> Result<bool, Broken> {
    let inputs = inputs_of(alloc, lists)?;
    Ok(fits(plan, &inputs))
}

// The machine before its first firing.
fn machine_of(alloc: Global, plan: &Plan, lists: Lists<'_>) -> Result<Machine, Broken> {
    let inputs = inputs_of(alloc, lists)?;
    if !fits(plan, &inputs) {
        return Err(Broken::Inputs);
    }
    Ok(Machine::start(alloc, plan, inputs)?)
}

// A firing of the operator at this port, if it has an item there; says whether it had one.
fn step_at(alloc: Global, machine: &mut Machine, op: u32, port: u32) -> Result<bool, NoMemory> {
    if !machine.enabled(op, port) {
        return Ok(false);
    }
    machine.step(alloc, op, port)?;
    Ok(true)
}

fn take_steps(alloc: Global, machine: &mut Machine, steps: &[Step]) -> Result<(), Broken> {
    for &(op, port, enabled) in steps {
        if step_at(alloc, machine, op, port)? != enabled {
            return Err(Broken::Enabled);
        }
    }
    Ok(())
}

// The next of a row of numbers that look as if drawn at random.
fn next(seed: u64) -> u64 {
    seed.wrapping_mul(6364136223846793005)
        .wrapping_add(1442695040888963407)
}

fn take_choices(alloc: Global, machine: &mut Machine, seed: u64) -> Result<(), Broken> {
    let mut seed = seed;
    for _ in 0..CHOICES {
        seed = next(seed);
        let op = (seed >> 40) % 12;
        let port = (seed >> 20) % 2;
        step_at(alloc, machine, op as u32, port as u32)?;
    }
    Ok(())
}

// Fires a machine as it is driven.
fn fire(alloc: Global, machine: &mut Machine, drive: Drive<'_>) -> Result<(), Broken> {
    match drive {
        Drive::By(steps) => take_steps(alloc, machine, steps),
        Drive::At(seed) => take_choices(alloc, machine, seed),
    }
}

// The same, where no firing is refused.
fn fire_all(alloc: Global, machine: &mut Machine, drive: Drive<'_>) -> Result<(), Broken>
    ensures { OnOk result (machine.new.stopped ≡ false) }
{
    fire(alloc, machine, drive)?;
    if machine.stopped() {
        return Err(Broken::Stopped);
    }
    Ok(())
}

// What a plan gave when its machine is driven.
fn outcome_of(
    alloc: Global,
    plan: &Plan,
    lists: Lists<'_>,
    drive: Drive<'_>,
) -> Result<Outcome, Broken> {
    let mut machine = machine_of(alloc, plan, lists)?;
    fire_all(alloc, &mut machine, drive)?;
    Ok(machine.into_outcome(alloc)?)
}

// The printed text of what a plan gave.
fn text_of(alloc: Global, plan: &Plan, outcome: &Outcome) -> Result<Bytes, Broken> {
    let raw = plan.raw();
    if outcome.outs.len() != raw.outputs.len()
        || outcome.tables.len() != raw.tables.len()
        || outcome.counts.len() != raw.ops.len()
    {
        return Err(Broken::Lists);
    }
    Ok(print_outcome(alloc, plan, outcome, true)?)
}

fn printed_of(
    alloc: Global,
    plan: &Plan,
    lists: Lists<'_>,
    drive: Drive<'_>,
) -> Result<Bytes, Broken> {
    let outcome = outcome_of(alloc, plan, lists, drive)?;
    text_of(alloc, plan, &outcome)
}

// What is printed of the plan of a text whose machine is driven.
fn printed(
    alloc: Global,
    text: &[u8],
    lists: Lists<'_>,
    drive: Drive<'_>,
) -> Result<Bytes, Broken> {
    let plan = plan_of(alloc, text)?;
    printed_of(alloc, &plan, lists, drive)
}

/// Whether this text is printed of the plan of a text whose machine is driven.
pub(crate) fn gives(
    alloc: Global,
    text: &[u8],
    lists: Lists<'_>,
    drive: Drive<'_>,
    wanted: &[u8],
) -> Result<(), Broken> {
    let given = printed(alloc, text, lists, drive)?;
    if given.as_slice() != wanted {
        return Err(Broken::Printed);
    }
    Ok(())
}
