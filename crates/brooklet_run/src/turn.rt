// Firings of an operator of a machine.
ghost use Rattle.std.specs.Prelude.{◌≡◌, ◌↔◌, ℕ, ◌+◌, ◌<◌, ◌≤◌, List, [], ◌∷◌, Err, true, false, min, length, replicate, drop, IsTrue, IfOk, IfSome, OnOk, OnErr, slice_index_or, slice_set};
ghost use Rattle.river_base.specs.declared.item.Item as item;
ghost use Rattle.river_base.specs.declared.item.Item.TheVariants as variant;
ghost use Rattle.river_base.specs.declared.item.Flat.TheVariants as flat;
ghost use Rattle.river_base.specs.Places.{append_at, each_grew, list_at};
ghost use Rattle.brooklet_model.specs.Histories.{most_firings};
ghost use Rattle.brooklet_step.specs.ByPlace.{joined_at};
ghost use Rattle.brooklet_step.specs.Tables.{each_added, table_places, AreFor};
ghost use Rattle.brooklet_step.specs.Works.{IsRunning, IsEnabled, Steps};
ghost use Rattle.brooklet_step.specs.Drained.{RunsOn};
ghost use Rattle.brooklet_step.specs.Reading.{IsPlaceRead, IsFrontItem, CanFire, IsBlankOf, FiredOp};

use crate::add::add_all;
use brooklet_step::{
    Emit, Lines, MachineState, Sizes, Spare, States, Tables, blank_for, clear_all, fire_op,
    fire_values, next_count,
};
use kern_rows::ItemLine;
use river_base::{Item, NoMemory};
use river_plan::Plan;
use std::alloc::Global;

/// Whether the operator has an item at this port.
pub(crate) fn is_enabled(parts: &MachineState, op: usize, port: usize) -> bool
    requires running { parts.now.stopped ≡ false }
    requires goes_on { IsRunning parts.now }
    ensures { IsTrue result ↔ IsEnabled parts.now op port }
{
    match place_read(parts, op, port) {
        Some(place) => !parts.queues.at(place).is_empty(),
        None => false,
    }
}

// The place of the queue that the operator reads at this port.
fn place_read(parts: &MachineState, op: usize, port: usize) -> Option<usize>
    requires { IsRunning parts.now }
    ensures { IsPlaceRead parts.now op port result }
{
    if op < parts.plan.raw().ops.len() {
        let places = parts.plan.reads_of(op);
        if port < places.len() {
            return Some(places[port]);
        }
    }
    None
}

/// One firing of an operator on the front item of the queue at one of its ports; where it is refused the machine is stopped.
pub(crate) fn fire_next(
    alloc: Global,
    parts: &mut MachineState,
    op: u32,
    port: u32,
) -> Result<(), NoMemory>
    requires goes_on { IsRunning parts.old }
    requires enabled { IsEnabled parts.old op port }
    ensures fired { OnOk result (Steps parts.old parts.new op port) }
    ensures goes_on { OnOk result (IsRunning parts.new) }
    ensures refused { OnErr result (parts.new.stopped ≡ true) }
{
    match blank_of(alloc, &parts.plan, op) {
        Ok(mut out) => fire_with(alloc, parts, op, port, &mut out, &mut Spare::new(alloc)),
        Err(e) => stop(parts, e),
    }
}

/// Firings on the items at a port of an operator, one after another, at most so many: whether there are any. They share the lists
/// for what they give. Where one is refused the machine is stopped.
pub(crate) fn fire_turn(
    alloc: Global,
    parts: &mut MachineState,
    op: u32,
    port: u32,
    most: usize,
) -> Result<bool, NoMemory>
    requires running { parts.old.stopped ≡ false }
    requires goes_on { IsRunning parts.old }
    ensures ran { OnOk result (RunsOn parts.old parts.new) }
    ensures goes_on { OnOk result (IsRunning parts.new) }
    ensures refused { OnErr result (parts.new.stopped ≡ true) }
{
    if !is_enabled(parts, op as usize, port as usize) {
        return Ok(false);
    }
    fire_most(alloc, parts, op, port, most)?;
    Ok(true)
}

// Firings on the items at a port, which has some.
fn fire_most(
    alloc: Global,
    parts: &mut MachineState,
    op: u32,
    port: u32,
    most: usize,
) -> Result<(), NoMemory>
    requires goes_on { IsRunning parts.old }
    requires enabled { IsEnabled parts.old op port }
    ensures ran { OnOk result (RunsOn parts.old parts.new) }
    ensures goes_on { OnOk result (IsRunning parts.new) }
    ensures refused { OnErr result (parts.new.stopped ≡ true) }
{
    match blank_of(alloc, &parts.plan, op) {
        Ok(mut out) => fire_all(
            alloc,
            parts,
            op,
            port,
            most,
            &mut out,
            &mut Spare::new(alloc),
        ),
        Err(e) => stop(parts, e),
    }
}

// Firings on the items at a port, all with these lists.
fn fire_all(
    alloc: Global,
    parts: &mut MachineState,
    op: u32,
    port: u32,
    most: usize,
    out: &mut Emit,
    spare: &mut Spare,
) -> Result<(), NoMemory>
    requires running { parts.old.stopped ≡ false }
    requires goes_on { IsRunning parts.old }
    requires blank { IsBlankOf parts.old.plan op out.old }
    ensures ran { OnOk result (RunsOn parts.old parts.new) }
    ensures goes_on { OnOk result (IsRunning parts.new) }
    ensures refused { OnErr result (parts.new.stopped ≡ true) }
{
    for _firing in 0..most {
        if !is_enabled(parts, op as usize, port as usize) {
            return Ok(());
        }
        fire_with(alloc, parts, op, port, out, spare)?;
    }
    Ok(())
}

// The machine is stopped.
fn stop(parts: &mut MachineState, e: NoMemory) -> Result<(), NoMemory>
    ensures stopped { parts.new.stopped ≡ true }
    ensures err { result ≡ Err e }
{
    parts.stopped = true;
    Err(e)
}

// An empty list for each port and table of an operator.
fn blank_of(alloc: Global, plan: &Plan, op: u32) -> Result<Emit, NoMemory>
    requires { op < length plan.now.ops }
    ensures { IfOk result (IsBlankOf plan.now op) }
{
    blank_for(alloc, &plan.raw().ops.at(op as usize).kernel)
}

// One firing of an operator, with empty lists for what it gives, which are empty again.
fn fire_with(
    alloc: Global,
    parts: &mut MachineState,
    op: u32,
    port: u32,
    out: &mut Emit,
    spare: &mut Spare,
) -> Result<(), NoMemory>
    requires goes_on { IsRunning parts.old }
    requires enabled { IsEnabled parts.old op port }
    requires blank { IsBlankOf parts.old.plan op out.old }
    ensures fired { OnOk result (Steps parts.old parts.new op port) }
    ensures goes_on { OnOk result (IsRunning parts.new) }
    ensures blank { OnOk result (IsBlankOf parts.new.plan op out.new) }
    ensures refused { OnErr result (parts.new.stopped ≡ true) }
{
    parts.stopped = true;
    let queue = parts.plan.reads_of(op as usize)[port as usize];
    fire_front(
        alloc,
        &parts.plan,
        op,
        port,
        &mut parts.queues,
        queue,
        parts.states.at_mut(op as usize),
        out,
        spare,
    )?;
    deliver(
        &mut parts.queues,
        parts.plan.writes_of(op as usize),
        &mut parts.tables,
        parts.plan.vars_of(op as usize),
        out,
    )?;
    count_one(&mut parts.counts, op as usize);
    parts.stopped = false;
    Ok(())
}

// What an operator of a plan gives for the front item of a queue, which leaves the queue. Where the
// item is kept as values it is read as it lies.
fn fire_front(
    alloc: Global,
    plan: &Plan,
    op: u32,
    port: u32,
    queues: &mut Lines,
    queue: usize,
    states: &mut States,
    out: &mut Emit,
    spare: &mut Spare,
) -> Result<(), NoMemory>
    requires queue { queue < length queues.old }
    requires item { 0 < length (list_at queues.old queue) }
    requires can { (x : item.Item) (left : List (List item.Item)) → IsFrontItem queues.old queue x left → CanFire plan.now op port x states.old }
    requires blank { IsBlankOf plan.now op out.old }
    ensures { OnOk result ((x : item.Item) × IsFrontItem queues.old queue x queues.new × FiredOp plan.now op port x states.old states.new out.new) }
{
    match front_row(queues, queue) {
        Some(row) => {
            fire_row(alloc, plan, op, port, row, states, out, spare)?;
            drop_front(queues, queue);
            Ok(())
        }
        None => {
            let item = front(queues, queue);
            fire_of(alloc, plan, op, port, item, states, out, spare)
        }
    }
}

// The values of the front item of a queue, where it is a row that is kept as values.
fn front_row(queues: &Lines, queue: usize) -> Option<&[i64]>
    requires { queue < length queues.now }
    ensures front { IfSome result (λ row. (rest : List item.Item) × (list_at queues.now queue ≡ variant.Flat (flat.One row.now) ∷ rest)) }
    ensures some { IfSome result (λ row. 1 ≤ length row.now) }
    ensures at_most { IfSome result (λ row. length row.now ≤ 16) }
{
    queues.at(queue).front_values()
}

// The front item of a queue leaves it.
fn drop_front(queues: &mut Lines, queue: usize)
    requires { queue < length queues.old }
    ensures { queues.new ≡ slice_set queues.old queue (drop 1 (list_at queues.old queue)) }
{
    queues.at_mut(queue).drop_front();
}

// The front item of a queue, which leaves it.
fn front(queues: &mut Lines, queue: usize) -> Item
    requires queue { queue < length queues.old }
    requires item { 0 < length (list_at queues.old queue) }
    ensures { IsFrontItem queues.old queue result queues.new }
{
    match queues.at_mut(queue).pop() {
        Some(item) => item,
        None => unreachable!(),
    }
}

// What an operator of a plan gives for an item at one of its ports.
fn fire_of(
    alloc: Global,
    plan: &Plan,
    op: u32,
    port: u32,
    item: Item,
    states: &mut States,
    out: &mut Emit,
    spare: &mut Spare,
) -> Result<(), NoMemory>
    requires can { CanFire plan.now op port item states.old }
    requires blank { IsBlankOf plan.now op out.old }
    ensures { OnOk result (FiredOp plan.now op port item states.old states.new out.new) }
{
    fire_op(alloc, plan.raw(), op, port, item, states, out, spare)
}

// What an operator of a plan gives for the row of these values at one of its ports.
fn fire_row(
    alloc: Global,
    plan: &Plan,
    op: u32,
    port: u32,
    row: &[i64],
    states: &mut States,
    out: &mut Emit,
    spare: &mut Spare,
) -> Result<(), NoMemory>
    requires some { 1 ≤ length row.now }
    requires at_most { length row.now ≤ 16 }
    requires can { CanFire plan.now op port (variant.Flat (flat.One row.now)) states.old }
    requires blank { IsBlankOf plan.now op out.old }
    ensures { OnOk result (FiredOp plan.now op port (variant.Flat (flat.One row.now)) states.old states.new out.new) }
{
    fire_values(alloc, plan.raw(), op, port, row, states, out, spare)
}

// What a firing gave goes to its queues and tables; none is left in the lists.
fn deliver(
    queues: &mut Lines,
    to: &[usize],
    tables: &mut Tables,
    vars: &[usize],
    out: &mut Emit,
) -> Result<(), NoMemory>
    requires ports { length to.now ≡ length out.old.outs }
    requires places { (j : ℕ) → j < length to.now → slice_index_or to.now j 0 < length queues.old }
    requires many { length (table_places (length tables.old) vars.now) ≤ length out.old.adds }
    requires wide { AreFor tables.old (table_places (length tables.old) vars.now) out.old.adds }
    ensures queues { OnOk result (queues.new ≡ each_grew queues.old (joined_at to.now (list_at out.old.outs))) }
    ensures tables { OnOk result (tables.new ≡ each_added tables.old (joined_at (table_places (length tables.old) vars.now) (list_at out.old.adds))) }
    ensures outs { OnOk result (out.new.outs ≡ replicate (length out.old.outs) []) }
    ensures adds { OnOk result (out.new.adds ≡ replicate (length out.old.adds) []) }
{
    send(queues, to, &mut out.outs)?;
    add_all(tables, vars, &out.adds)?;
    clear_all(&mut out.adds);
    Ok(())
}

// Each port's items move to the end of its queue; none is left.
fn send(queues: &mut Lines, to: &[usize], outs: &mut Lines) -> Result<(), NoMemory>
    requires ports { length to.now ≡ length outs.old }
    requires places { (j : ℕ) → j < length to.now → slice_index_or to.now j 0 < length queues.old }
    ensures queues { OnOk result (queues.new ≡ each_grew queues.old (joined_at to.now (list_at outs.old))) }
    ensures blank { OnOk result (outs.new ≡ replicate (length outs.old) []) }
{
    for port in 0..to.len() {
        send_port(queues, to[port], outs, port)?;
    }
    Ok(())
}

// The items at a port move to the end of a queue.
fn send_port(
    queues: &mut Lines,
    queue: usize,
    outs: &mut Lines,
    port: usize,
) -> Result<(), NoMemory>
    requires queue { queue < length queues.old }
    requires port { port < length outs.old }
    ensures queues { OnOk result (queues.new ≡ append_at queues.old queue (list_at outs.old port)) }
    ensures outs { OnOk result (outs.new ≡ slice_set outs.old port []) }
{
    put(queues, queue, outs.at_mut(port))
}

// The items of a line move to the end of a queue.
fn put(queues: &mut Lines, queue: usize, items: &mut ItemLine) -> Result<(), NoMemory>
    requires { queue < length queues.old }
    ensures queues { OnOk result (queues.new ≡ append_at queues.old queue items.old) }
    ensures items { OnOk result (items.new ≡ []) }
{
    queues.at_mut(queue).take_from(items)
}

// One more firing of an operator.
fn count_one(counts: &mut Sizes, op: usize)
    requires { op < length counts.old }
    ensures { counts.new ≡ slice_set counts.old op (min most_firings (slice_index_or counts.old op 0 + 1)) }
{
    let count = *counts.at(op);
    *counts.at_mut(op) = next_count(count);
}
