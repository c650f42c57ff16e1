// A complete run: the operators take turns, and then each is drained.
ghost use Rattle.std.specs.Prelude.{◌≡◌, ℕ, pos, ◌<◌, false, length, map, IfOk, OnOk};
ghost use Rattle.kern_tables.specs.Kept.{rows_of};
ghost use Rattle.river_plan.specs.Valid.{IsPlan};
ghost use Rattle.brooklet_model.specs.Histories.{firings};
ghost use Rattle.brooklet_model.specs.Meaning.{meaning};
ghost use Rattle.brooklet_step.specs.Drained.{IsDrained, Follows, RunsOn, DrainedBefore, HasPorts, StandsAfterSomeRun};
ghost use Rattle.brooklet_model.specs.Fit.{Fit};
ghost use Rattle.brooklet_step.specs.Tables.{defined_tables};

use crate::opening::lines_of;
use crate::{Inputs, Machine};
use brooklet_step::{Lines, Outcome};
use river_base::NoMemory;
use river_plan::Plan;
use std::alloc::Global;

/// How often an operator fires at a port, at most, before the next one has its turn.
const TURN: usize = 64;

/// Runs a plan on these inputs to the end. The operators take turns in the order listed, and port by port, so that few items wait
/// between them. The outputs and the rows of the tables are what the plan means; what each table keeps is what it keeps of the rows
/// that the definition adds to it.
pub fn run_one(alloc: Global, plan: &Plan, inputs: Inputs) -> Result<Outcome, NoMemory>
    requires fits { Fit plan.now inputs }
    ensures outs { IfOk result (λ outcome. outcome.outs ≡ (meaning plan.now inputs).outs) }
    ensures tables { IfOk result (λ outcome. outcome.tables ≡ defined_tables plan.now inputs) }
    ensures rows { IfOk result (λ outcome. map rows_of outcome.tables ≡ (meaning plan.now inputs).tables) }
    ensures counts { IfOk result (λ outcome. outcome.counts ≡ map pos (firings plan.now inputs)) }
{
    let lines = lines_of(alloc, inputs)?;
    run_lines(alloc, plan, lines)
}

/// The same, where the items of the inputs stand in lines.
pub fn run_lines(alloc: Global, plan: &Plan, inputs: Lines) -> Result<Outcome, NoMemory>
    requires fits { Fit plan.now inputs }
    ensures outs { IfOk result (λ outcome. outcome.outs ≡ (meaning plan.now inputs).outs) }
    ensures tables { IfOk result (λ outcome. outcome.tables ≡ defined_tables plan.now inputs) }
    ensures rows { IfOk result (λ outcome. map rows_of outcome.tables ≡ (meaning plan.now inputs).tables) }
    ensures counts { IfOk result (λ outcome. outcome.counts ≡ map pos (firings plan.now inputs)) }
{
    let mut machine = Machine::of_lines(alloc, plan, inputs)?;
    run_all(alloc, plan, &mut machine)?;
    machine.into_outcome(alloc)
}

// All operators: they take turns for as long as one of them has an item, so that none is left to be drained.
fn run_all(alloc: Global, plan: &Plan, machine: &mut Machine) -> Result<(), NoMemory>
    requires plan { machine.old.plan ≡ plan.now }
    requires running { machine.old.stopped ≡ false }
    requires ran { StandsAfterSomeRun machine.old }
    ensures valid { IsPlan plan.now }
    ensures drained { OnOk result (DrainedBefore machine.old machine.new (length plan.now.ops)) }
{
    let ops = op_count(plan);
    run_rounds(alloc, plan, machine, ops)?;
    drain_all(alloc, plan, machine, ops)
}

// Rounds of turns, to the first in which none fires.
fn run_rounds(alloc: Global, plan: &Plan, machine: &mut Machine, ops: u32) -> Result<(), NoMemory>
    requires ops { ops ≡ length plan.now.ops }
    requires valid { IsPlan plan.now }
    requires plan { machine.old.plan ≡ plan.now }
    requires running { machine.old.stopped ≡ false }
    requires ran { StandsAfterSomeRun machine.old }
    ensures { OnOk result (RunsOn machine.old machine.new) }
{
    for _round in 0..usize::MAX {
        if !run_round(alloc, plan, machine, ops)? {
            return Ok(());
        }
    }
    Ok(())
}

// A turn for each operator, one after another: whether one of them fired.
fn run_round(alloc: Global, plan: &Plan, machine: &mut Machine, ops: u32) -> Result<bool, NoMemory>
    requires ops { ops ≡ length plan.now.ops }
    requires valid { IsPlan plan.now }
    requires plan { machine.old.plan ≡ plan.now }
    requires running { machine.old.stopped ≡ false }
    requires ran { StandsAfterSomeRun machine.old }
    ensures { OnOk result (RunsOn machine.old machine.new) }
{
    let mut fired = false;
    for op in 0..ops {
        let ports = port_count(plan, op);
        if take_turns(alloc, machine, op, ports)? {
            fired = true;
        }
    }
    Ok(fired)
}

// A turn at each port of an operator, one after another: whether it fired.
fn take_turns(alloc: Global, machine: &mut Machine, op: u32, ports: u32) -> Result<bool, NoMemory>
    requires valid { IsPlan machine.old.plan }
    requires running { machine.old.stopped ≡ false }
    requires ran { StandsAfterSomeRun machine.old }
    ensures { OnOk result (RunsOn machine.old machine.new) }
{
    let mut fired = false;
    for port in 0..ports {
        if machine.turn(alloc, op, port, TURN)? {
            fired = true;
        }
    }
    Ok(fired)
}

// All operators to their end, one after another.
fn drain_all(alloc: Global, plan: &Plan, machine: &mut Machine, ops: u32) -> Result<(), NoMemory>
    requires ops { ops ≡ length plan.now.ops }
    requires valid { IsPlan plan.now }
    requires plan { machine.old.plan ≡ plan.now }
    requires running { machine.old.stopped ≡ false }
    requires ran { StandsAfterSomeRun machine.old }
    ensures { OnOk result (DrainedBefore machine.old machine.new (length plan.now.ops)) }
{
    for op in 0..ops {
        let ports = port_count(plan, op);
        run_op(alloc, machine, op, ports)?;
    }
    Ok(())
}

// How many operators there are.
fn op_count(plan: &Plan) -> u32
    ensures count { result ≡ length plan.now.ops }
    ensures valid { IsPlan plan.now }
{
    plan.raw().ops.len() as u32
}

// How many ports an operator reads.
fn port_count(plan: &Plan, op: u32) -> u32
    requires { op < length plan.now.ops }
    ensures { HasPorts plan.now op result }
{
    plan.raw().ops.at(op as usize).reads.len() as u32
}

// All ports of an operator, one after another.
fn run_op(alloc: Global, machine: &mut Machine, op: u32, ports: u32) -> Result<(), NoMemory>
    requires valid { IsPlan machine.old.plan }
    requires running { machine.old.stopped ≡ false }
    requires ran { StandsAfterSomeRun machine.old }
    ensures follows { OnOk result (Follows machine.old machine.new op) }
    ensures drained { OnOk result ((port : ℕ) → port < ports → IsDrained machine.new op port) }
{
    for port in 0..ports {
        run_port(alloc, machine, op, port)?;
    }
    Ok(())
}

// All items at a port of an operator.
fn run_port(alloc: Global, machine: &mut Machine, op: u32, port: u32) -> Result<(), NoMemory>
    requires valid { IsPlan machine.old.plan }
    requires running { machine.old.stopped ≡ false }
    requires ran { StandsAfterSomeRun machine.old }
    ensures follows { OnOk result (Follows machine.old machine.new op) }
    ensures drained { OnOk result (IsDrained machine.new op port) }
{
    while machine.enabled(op, port) {
        machine.step(alloc, op, port)?;
    }
    Ok(())
}
