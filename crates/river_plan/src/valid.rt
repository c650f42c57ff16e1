// Valid plans.
ghost use Rattle.std.specs.Prelude.{◌≡◌, ◌<◌, IfOk, length};
ghost use Rattle.std.specs.List.Sorted.{IsStrictlyIncreasing};
ghost use Rattle.river_base.specs.Places.{list_at};
ghost use Rattle.river_plan.specs.Forms.{plan_form, queue_names, variable_names};
ghost use Rattle.river_plan.specs.Places.{read_places, write_places, var_places, users_from};
ghost use Rattle.river_plan.specs.Valid.{IsPlan};
ghost use Rattle.river_plan.specs.Wired.{IsWired};

use crate::RawPlan;
use crate::wiring::Wiring;
use river_base::NoMemory;
use std::alloc::Global;
use std::marker::Model;

/// A valid plan, which contracts see as its lists. After the programs of the Brooklet calculus (Soulé and others, ESOP
/// 2010): queues with one writer and one reader, and operators in an order in which each reads what is written before.
#[derive(Drop)]
pub struct Plan {
    raw: Box<RawPlan>,
    wiring: Box<Wiring>,
}

impl Model for Plan {
    ghost use Rattle.river_plan.specs.Forms.{PlanForm, plan_form};
    ghost use Rattle.river_plan.specs.Valid.{IsPlan};
    ghost use Rattle.river_plan.specs.Wired.{IsWired};
    ghost use Rattle.river_plan.specs.PlanCode.{plan_code};

    ghost Value = { PlanForm };

    ghost coded = { plan_code };

    ghost view = { λ p. plan_form p.raw.value };

    ghost invariant = { λ p. IsPlan (plan_form p.raw.value) × IsWired (plan_form p.raw.value) p.wiring.value };
}

impl Plan {
    /// The lists of the plan.
    pub fn raw(&self) -> &RawPlan
        ensures raw { plan_form result.now ≡ self.now }
        ensures valid { IsPlan self.now }
    {
        &self.raw
    }

    /// An equal plan.
    pub fn copy(&self, alloc: Global) -> Result<Plan, NoMemory>
        ensures { IfOk result (λ copy. copy ≡ self.now) }
    {
        let raw = Box::new(alloc, self.raw.copy(alloc)?)?;
        let wiring = Box::new(alloc, self.wiring.copy(alloc)?)?;
        Ok(Plan { raw, wiring })
    }

    /// The places, among the names of the queues, of those that the operator of this number reads, port by port.
    pub fn reads_of(&self, op: usize) -> &[usize]
        requires { op < length self.now.ops }
        ensures { result.now ≡ list_at (read_places self.now) op }
    {
        self.wiring.reads.by_op.at(op).as_slice()
    }

    /// The places, among the names of the queues, of those that the operator of this number writes, port by port.
    pub fn writes_of(&self, op: usize) -> &[usize]
        requires { op < length self.now.ops }
        ensures { result.now ≡ list_at (write_places self.now) op }
    {
        self.wiring.writes.by_op.at(op).as_slice()
    }

    /// The places, among the names of the variables, of those of the operator of this number, in its kernel's order.
    pub fn vars_of(&self, op: usize) -> &[usize]
        requires { op < length self.now.ops }
        ensures { result.now ≡ list_at (var_places self.now) op }
    {
        self.wiring.vars.by_op.at(op).as_slice()
    }

    /// The numbers of the operators that read the queue at this place among the names of the queues: one, or none.
    pub fn readers_of(&self, queue: usize) -> &[usize]
        requires { queue < length (queue_names self.now) }
        ensures { result.now ≡ users_from 0 (read_places self.now) queue }
    {
        self.wiring.reads.by_place.at(queue).as_slice()
    }

    /// The numbers of the operators that write the queue at this place among the names of the queues: one, or none.
    pub fn writers_of(&self, queue: usize) -> &[usize]
        requires { queue < length (queue_names self.now) }
        ensures { result.now ≡ users_from 0 (write_places self.now) queue }
    {
        self.wiring.writes.by_place.at(queue).as_slice()
    }

    /// The numbers of the operators that have the variable at this place among the names of the variables, in order.
    pub fn users_of(&self, variable: usize) -> &[usize]
        requires { variable < length (variable_names self.now) }
        ensures users { result.now ≡ users_from 0 (var_places self.now) variable }
        ensures rising { IsStrictlyIncreasing result.now }
    {
        self.wiring.vars.by_place.at(variable).as_slice()
    }

    /// The plan of lists that are valid, with their wiring.
    pub fn of_valid(alloc: Global, raw: RawPlan, wiring: Wiring) -> Result<Plan, NoMemory>
        requires valid { IsPlan (plan_form raw) }
        requires wired { IsWired (plan_form raw) wiring }
        ensures { IfOk result (λ plan. plan ≡ plan_form raw) }
    {
        let wiring = Box::new(alloc, wiring)?;
        let raw = Box::new(alloc, raw)?;
        Ok(Plan { raw, wiring })
    }
}
