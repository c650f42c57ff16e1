// The tasks of a net, before anything moves.
ghost use Rattle.std.specs.Prelude.{◌≡◌, ◌<◌, [], Some, length, map, replicate, All, AllPairs, IfOk, OnOk, slice_get, slice_set};
ghost use Rattle.river_plan.specs.ByPlace.{kind_at};
ghost use Rattle.river_plan.specs.Forms.{OpForm, queue_names};
ghost use Rattle.river_plan.specs.Places.{read_places};
ghost use Rattle.river_plan.specs.Valid.{IsPlan};
ghost use Rattle.river_base.specs.Places.{list_at};
ghost use Rattle.brooklet_model.specs.Fit.{Fit};
ghost use Rattle.brooklet_step.specs.Initial.{AreFirstStates};
ghost use Rattle.brooklet_step.specs.Took.{IsBlank};
ghost use Rattle.fire_tasks.specs.Adds.{AreHomes};
ghost use Rattle.fire_tasks.specs.Outlet.{Stored};
ghost use Rattle.fire_open.specs.First.{whole_list, IsFirstTask, AreFirstTasks, HasLeft};
ghost use Rattle.fire_open.specs.Fresh.{AreFresh};
ghost use Rattle.fire_open.specs.Homes.{AreTableClasses};

use crate::homes::{TableNumbers, homes_of, table_classes};
use brooklet_step::{Emit, Lines, States, first_queues, first_states};
use fire_tasks::{Inlet, Outlet, TablePort, Task};
use kern_rows::ItemLine;
use plan_check::queue_kinds;
use river_base::{Listed, NoMemory, QueueType};
use river_plan::Plan;
use std::alloc::Global;
use std::mem::replace;

// The line at a place, as a kept list; nothing is left there.
fn whole_list(alloc: Global, queues: &mut Lines, place: usize) -> Inlet
    requires { place < length queues.old }
    ensures inlet { result ≡ whole_list queues.old place }
    ensures left { queues.new ≡ slice_set queues.old place [] }
{
    let line = replace(queues.at_mut(place), ItemLine::new(alloc));
    Inlet::kept(line)
}

// Kept lists of the lines at these places.
fn ins_of(alloc: Global, places: &[usize], queues: &mut Lines) -> Result<Listed<Inlet>, NoMemory>
    requires there { All (λ n. n < length queues.old) places.now }
    requires apart { AllPairs (λ m n. m ≡ n → ⊥) places.now }
    ensures ins { IfOk result (λ ins. ins ≡ map (whole_list queues.old) places.now) }
    ensures left { OnOk result (HasLeft places.now queues.old queues.new) }
{
    let mut ins = Listed::new(alloc);
    for place in places {
        ins.push(whole_list(alloc, queues, *place))?;
    }
    Ok(ins)
}

// The types at these places.
#[tactic(auto, using(work_code::proofs::Lists::copies))]
fn kinds_of(
    alloc: Global,
    places: &[usize],
    kinds: &Listed<QueueType>,
) -> Result<Listed<QueueType>, NoMemory>
    requires { All (λ n. n < length kinds.now) places.now }
    ensures { IfOk result (λ list. list ≡ map (kind_at kinds.now) places.now) }
{
    let mut list = Listed::new(alloc);
    for place in places {
        list.push(*kinds.at(*place))?;
    }
    Ok(list)
}

// So many empty kept lists.
fn outs_of(alloc: Global, count: usize) -> Result<Listed<Outlet>, NoMemory>
    ensures { IfOk result (λ outs. outs ≡ replicate count (Stored [])) }
{
    let mut outs = Listed::new(alloc);
    for _out in 0..count {
        outs.push(Outlet::kept(alloc))?;
    }
    Ok(outs)
}

// The task of an operator.
#[tactic(auto, using(crate::proofs::FirstLemmas::places_there))]
fn task_of(
    alloc: Global,
    plan: &Plan,
    op: u32,
    queues: &mut Lines,
    kinds: &Listed<QueueType>,
    classes: &TableNumbers,
) -> Result<Task, NoMemory>
    requires there { op < length plan.now.ops }
    requires valid { IsPlan plan.now }
    requires queues { length queues.old ≡ length (queue_names plan.now) }
    requires kinds { length kinds.now ≡ length (queue_names plan.now) }
    requires classes { AreTableClasses plan.now classes.now }
    ensures task { IfOk result (IsFirstTask plan.now queues.old kinds.now op) }
    ensures left { OnOk result (HasLeft (list_at (read_places plan.now) op) queues.old queues.new) }
{
    let (ins, kinds) = taken_from(alloc, plan.reads_of(op as usize), queues, kinds)?;
    let (outs, pending) = sent_to(alloc, plan.writes_of(op as usize).len())?;
    let (first, homes) = kept_of(alloc, plan, op, classes)?;
    let task = Task::new(alloc, op, (ins, kinds), (outs, pending), first, homes);
    Ok(task)
}

// Where an operator takes from, which are kept lists at first, and the types of these queues.
fn taken_from(
    alloc: Global,
    places: &[usize],
    queues: &mut Lines,
    kinds: &Listed<QueueType>,
) -> Result<(Listed<Inlet>, Listed<QueueType>), NoMemory>
    requires queues { All (λ n. n < length queues.old) places.now }
    requires kinds { All (λ n. n < length kinds.now) places.now }
    requires apart { AllPairs (λ m n. m ≡ n → ⊥) places.now }
    ensures ins { IfOk result (λ both. both.0 ≡ map (whole_list queues.old) places.now) }
    ensures kinds { IfOk result (λ both. both.1 ≡ map (kind_at kinds.now) places.now) }
    ensures left { OnOk result (HasLeft places.now queues.old queues.new) }
{
    let ins = ins_of(alloc, places, queues)?;
    let kinds = kinds_of(alloc, places, kinds)?;
    Ok((ins, kinds))
}

/// So many empty lines.
pub fn blank_lines(alloc: Global, count: usize) -> Result<Lines, NoMemory>
    ensures { IfOk result (λ lines. lines ≡ replicate count []) }
{
    let mut lines = Lines::new(alloc);
    for _i in 0..count {
        lines.push(ItemLine::new(alloc))?;
    }
    Ok(lines)
}

// Where an operator sends to, which are kept lists at first, and what is pending there.
fn sent_to(alloc: Global, count: usize) -> Result<(Listed<Outlet>, Lines), NoMemory>
    ensures outs { IfOk result (λ both. both.0 ≡ replicate count (Stored [])) }
    ensures pending { IfOk result (λ both. both.1 ≡ replicate count []) }
{
    let outs = outs_of(alloc, count)?;
    let pending = blank_lines(alloc, count)?;
    Ok((outs, pending))
}

// What an operator's kernel keeps at first, with lists for what it gives, and where its rows go.
fn kept_of(
    alloc: Global,
    plan: &Plan,
    op: u32,
    classes: &TableNumbers,
) -> Result<((States, Emit), (Listed<TablePort>, TableNumbers)), NoMemory>
    requires there { op < length plan.now.ops }
    requires valid { IsPlan plan.now }
    requires classes { AreTableClasses plan.now classes.now }
    ensures states { IfOk result (λ both. (o : OpForm) → slice_get plan.now.ops op ≡ Some o → AreFirstStates o.kernel both.0.0) }
    ensures emit { IfOk result (λ both. (o : OpForm) → slice_get plan.now.ops op ≡ Some o → IsBlank o.kernel both.0.1) }
    ensures homes { IfOk result (λ both. AreHomes plan.now op both.1.0 both.1.1) }
{
    let first = first_states(alloc, &plan.raw().ops.at(op as usize).kernel)?;
    let homes = homes_of(alloc, plan, op as usize, classes)?;
    Ok((first, homes))
}

// A task for each operator.
fn tasks_by(
    alloc: Global,
    plan: &Plan,
    count: u32,
    queues: &mut Lines,
    kinds: &Listed<QueueType>,
    classes: &TableNumbers,
) -> Result<Listed<Task>, NoMemory>
    requires valid { IsPlan plan.now }
    requires count { count ≡ length plan.now.ops }
    requires queues { length queues.old ≡ length (queue_names plan.now) }
    requires kinds { length kinds.now ≡ length (queue_names plan.now) }
    requires classes { AreTableClasses plan.now classes.now }
    ensures { IfOk result (AreFirstTasks plan.now queues.old kinds.now count) }
{
    let mut tasks = Listed::new(alloc);
    for op in 0..count {
        let task = task_of(alloc, plan, op, queues, kinds, classes)?;
        tasks.push(task)?;
    }
    Ok(tasks)
}

/// A task for each operator. The items of the inputs move to the tasks that read them.
pub fn tasks_of(alloc: Global, plan: &Plan, inputs: Lines) -> Result<Listed<Task>, NoMemory>
    requires { Fit plan.now inputs }
    ensures { IfOk result (AreFresh plan.now inputs) }
{
    let raw = plan.raw();
    let count = raw.ops.len() as u32;
    let mut queues = first_queues(alloc, raw, inputs)?;
    let kinds = queue_kinds(alloc, raw)?;
    let classes = table_classes(alloc, plan)?;
    tasks_by(alloc, plan, count, &mut queues, &kinds, &classes)
}
