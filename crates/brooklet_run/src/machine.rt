// Brooklet's machine.
ghost use Rattle.std.specs.Prelude.{◌≡◌, ◌↔◌, true, false, map, IsTrue, IfOk, OnOk, OnErr};
ghost use Rattle.river_plan.specs.Forms.{decl_names};
ghost use Rattle.brooklet_step.specs.Drained.{RunsOn};
ghost use Rattle.brooklet_model.specs.Fit.{Fit};
ghost use Rattle.brooklet_step.specs.Works.{IsEnabled, Starts, Steps, AreCounts, queue_of};

use crate::Inputs;
use crate::ending::outcome_of;
use crate::opening::{first_parts, lines_of};
use crate::turn::{fire_next, fire_turn, is_enabled};
use brooklet_step::{Lines, MachineState, Outcome};
use river_base::NoMemory;
use river_plan::Plan;
use std::alloc::Global;
use std::marker::Model;

/// Brooklet's machine (Soulé and others, ESOP 2010): it fires one operator at a time, on the front item of one of its queues,
/// as its caller chooses. Contracts see what it keeps, and that is no more than the items that are not taken and the tables. A machine
/// that is not stopped stands for a state of the definition: some run from some inputs of its plan led there.
#[derive(Drop)]
pub struct Machine {
    parts: MachineState,
}

impl Model for Machine {
    ghost use Rattle.brooklet_step.specs.declared.parts.MachineState.{MachineState};

    ghost Value = { MachineState };

    ghost use Rattle.brooklet_step.specs.PartsCode.{parts_code};

    ghost coded = { parts_code };

    ghost use Rattle.brooklet_step.specs.Works.{IsMachine};

    ghost view = { λ m. m.parts };

    ghost invariant = { λ m. IsMachine m.parts };
}

impl Machine {
    /// The machine of a plan before the first firing: the inputs have these items, the other queues none, and the tables no rows. It
    /// stands for the first state of the definition.
    pub fn start(alloc: Global, plan: &Plan, inputs: Inputs) -> Result<Machine, NoMemory>
        requires { Fit plan.now inputs }
        ensures { IfOk result (λ machine. Starts plan.now inputs machine) }
    {
        let lines = lines_of(alloc, inputs)?;
        Machine::of_lines(alloc, plan, lines)
    }

    /// The same, where the items of the inputs stand in lines.
    pub fn of_lines(alloc: Global, plan: &Plan, inputs: Lines) -> Result<Machine, NoMemory>
        requires { Fit plan.now inputs }
        ensures { IfOk result (λ machine. Starts plan.now inputs machine) }
    {
        Ok(Machine {
            parts: first_parts(alloc, plan, inputs)?,
        })
    }

    /// Whether a firing was refused.
    pub fn stopped(&self) -> bool
        ensures { result ≡ self.now.stopped }
    {
        self.parts.stopped
    }

    /// Whether the operator has an item at this port, and the machine is not stopped; false for an operator or a port that
    /// is not there.
    pub fn enabled(&self, op: u32, port: u32) -> bool
        ensures { IsTrue result ↔ IsEnabled self.now op port }
    {
        if self.parts.stopped {
            return false;
        }
        is_enabled(&self.parts, op as usize, port as usize)
    }

    /// One firing of an operator on the front item of the queue at one of its ports, which leaves the queue; what the operator adds
    /// goes to its tables. From every state of the definition that the machine stands for, the machine then stands for one
    /// after a step there, and it goes on: it can be
    /// fired again wherever an item waits. Where it is refused for want of memory the machine is stopped, and nothing is enabled
    /// any more.
    pub fn step(&mut self, alloc: Global, op: u32, port: u32) -> Result<(), NoMemory>
        requires { IsEnabled self.old op port }
        ensures fired { OnOk result (Steps self.old self.new op port) }
        ensures refused { OnErr result (self.new.stopped ≡ true) }
    {
        fire_next(alloc, &mut self.parts, op, port)
    }

    /// Firings of an operator on the items at one of its ports, one after another, at most so many: whether there are any. The
    /// machine then stands for the state after a run that goes on.
    pub(crate) fn turn(
        &mut self,
        alloc: Global,
        op: u32,
        port: u32,
        most: usize,
    ) -> Result<bool, NoMemory>
        requires running { self.old.stopped ≡ false }
        ensures ran { OnOk result (RunsOn self.old self.new) }
        ensures refused { OnErr result (self.new.stopped ≡ true) }
    {
        fire_turn(alloc, &mut self.parts, op, port, most)
    }

    /// What the machine gave so far: the histories of the outputs, which nobody took from, the tables, and how often each operator
    /// fired.
    pub fn into_outcome(self, alloc: Global) -> Result<Outcome, NoMemory>
        requires running { self.stopped ≡ false }
        ensures outs { IfOk result (λ outcome. outcome.outs ≡ map (queue_of self) (decl_names self.plan.outputs)) }
        ensures tables { IfOk result (λ outcome. outcome.tables ≡ self.tables) }
        ensures counts { IfOk result (λ outcome. AreCounts self outcome.counts) }
    {
        let mut parts = self.parts;
        outcome_of(alloc, &mut parts)
    }
}
