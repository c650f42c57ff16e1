// The plan of a program.
ghost use Rattle.std.specs.Prelude.{◌≡◌, ◌<◌, [], ◌∷◌, ◌++◌, ◌^◌, codes, filter, length, map, OnOk, IfOk};
ghost use Rattle.river_plan.specs.Forms.{plan_form, op_forms, empty_form};
ghost use Rattle.river_plan.specs.Uses.{all_vars};
ghost use Rattle.streamit_model.specs.Unrolled.{Stream};
ghost use Rattle.streamit_model.specs.Plan.{values_in as queue_of, is_own_queue, own_queues, ops_from, plan_of};
ghost use Rattle.streamit_build.specs.Units.{declared_forms, AreLower, HaveShortFilters, IsTree};
ghost use Rattle.streamit_model.specs.Judged.{Streamed, judged};
ghost use Rattle.streamit_model.specs.Shallow.{AreShallowUnits};
ghost use Rattle.streamit_build.specs.Knowing.{IsEntry, Knows};
ghost use Rattle.streamit_build.specs.Plans.{plan_lists};
ghost use Rattle.streamit_text.specs.Program.{unit_forms};
ghost use Rattle.streamit_build.specs.Readable.{AreReadable};
ghost use Rattle.streamit_build.specs.Planned.{KnowsLast, PlansLast, PlansBy};

use crate::builder::build;
use crate::{Entry, Known, Made};
use plan_check::plan_of;
use river_base::{FlatType, MOST_OPERATORS, Name, NoMemory, QueueType};
use river_plan::{Decl, Decls, Names, Ops, Plan, RawPlan};
use std::alloc::Global;
use streamit_model::{Fault, Refusal};
use streamit_text::Unit;

/// Why a program has no plan.
#[derive(Clone, Copy)]
pub enum Refused {
    /// The program is refused.
    Program(Refusal),
    /// There was no memory.
    NoMemory,
}

impl From<NoMemory> for Refused {
    ghost use Rattle.std.specs.Prelude.{◌≡◌};
    ghost use Rattle.streamit_build.specs.declared.planning.Refused.TheVariants as refused;

    ghost from_gives = { λ _ r. r ≡ refused.NoMemory };

    fn from(_: NoMemory) -> Self {
        Refused::NoMemory
    }
}

/// The plan of a program, which is that of its last stream; or the fault that comes first, with its unit.
#[tactic(auto, using(crate::proofs::Checked::plans))]
pub fn plan(alloc: Global, units: &[Unit]) -> Result<Plan, Refused>
    requires readable { AreReadable (unit_forms units.now) }
    requires shallow { AreShallowUnits (unit_forms units.now) }
    requires some { 0 < length units.now }
    requires few { length units.now < 2 ^ 32 }
    ensures { PlansBy (λ plan. plan) result (judged (unit_forms units.now)) }
{
    let raw = raw_plan(alloc, units)?;
    let plan = plan_of(alloc, raw)?;
    Ok(plan)
}

// The same, as lists.
fn raw_plan(alloc: Global, units: &[Unit]) -> Result<RawPlan, Refused>
    requires readable { AreReadable (unit_forms units.now) }
    requires some { 0 < length units.now }
    requires few { length units.now < 2 ^ 32 }
    ensures { PlansBy plan_form result (judged (unit_forms units.now)) }
{
    let mut known = Known::new(alloc);
    known.program(alloc, units)
}

impl Known {
    // The lists of the plan, where no stream is known.
    fn program(&mut self, alloc: Global, units: &[Unit]) -> Result<RawPlan, Refused>
        requires nothing { Knows self.old [] }
        requires readable { AreReadable (unit_forms units.now) }
        requires some { 0 < length units.now }
        requires few { length units.now < 2 ^ 32 }
        ensures { PlansBy plan_form result (judged (unit_forms units.now)) }
    {
        self.units(alloc, units)?;
        let count = units.len();
        self.plan_last(alloc, count as u32, units[count - 1].name)
    }

    // The plan of the stream that is declared last, in this unit.
    fn plan_last(&self, alloc: Global, unit: u32, last: Name) -> Result<RawPlan, Refused>
        requires { KnowsLast self.now last }
        ensures { (s : Stream) (others : Streamed) → Knows self.now ((last, s) ∷ others) → PlansLast result unit s }
    {
        match self.find(last) {
            Some(top) => self.plan_at(alloc, unit, top),
            None => unreachable!(),
        }
    }

    // The plan of the stream with this entry, in this unit.
    fn plan_at(&self, alloc: Global, unit: u32, top: Entry) -> Result<RawPlan, Refused>
        requires there { top.number < length self.now.declared.items }
        requires lower { AreLower (declared_forms self.now.declared.items) }
        requires short { HaveShortFilters (declared_forms self.now.declared.items) }
        ensures { (s : Stream) → IsEntry (declared_forms self.now.declared.items) top s → PlansLast result unit s }
    {
        if top.ops > MOST_OPERATORS {
            return Err(Refused::Program(Refusal {
                unit,
                fault: Fault::Limit,
            }));
        }
        let raw = self.plan(alloc, top.number as usize)?;
        Ok(raw)
    }

    // The plan of the stream with this number, as lists.
    fn plan(&self, alloc: Global, top: usize) -> Result<RawPlan, NoMemory>
        requires there { top < length self.now.declared.items }
        requires lower { AreLower (declared_forms self.now.declared.items) }
        requires short { HaveShortFilters (declared_forms self.now.declared.items) }
        ensures { (s : Stream) → IsTree (declared_forms self.now.declared.items) top s → IfOk result (λ raw. plan_form raw ≡ plan_of s) }
    {
        let ops = self.operators(alloc, top)?;
        lists(alloc, ops)
    }

    // Its operators, between the queues `in` and `out`.
    #[tactic(auto, unfolding(river_base::specs::Name::is_word, river_base::specs::Name::is_letter, river_base::specs::Name::is_digit))]
    fn operators(&self, alloc: Global, top: usize) -> Result<Ops, NoMemory>
        requires there { top < length self.now.declared.items }
        requires lower { AreLower (declared_forms self.now.declared.items) }
        requires short { HaveShortFilters (declared_forms self.now.declared.items) }
        ensures { (s : Stream) → IsTree (declared_forms self.now.declared.items) top s → IfOk result (λ ops. op_forms ops ≡ ops_from s) }
    {
        let mut made = Made {
            ops: Ops::new(alloc),
            next_op: 1,
            next_queue: 1,
        };
        let from = Name::of(b"in");
        let to = Name::of(b"out");
        build(alloc, self.declared.as_slice(), top, from, to, &mut made)?;
        Ok(made.ops)
    }
}

// The lists of a plan with these operators.
fn lists(alloc: Global, ops: Ops) -> Result<RawPlan, NoMemory>
    ensures { IfOk result (λ raw. plan_form raw ≡ plan_lists (op_forms ops)) }
{
    let mut raw = RawPlan::new(alloc);
    fill(&mut raw, ops)?;
    Ok(raw)
}

// Fills lists that are empty.
fn fill(raw: &mut RawPlan, ops: Ops) -> Result<(), NoMemory>
    requires { plan_form raw.old ≡ empty_form }
    ensures { OnOk result (plan_form raw.new ≡ plan_lists (op_forms ops)) }
{
    declare(raw, &ops)?;
    raw.ops = ops;
    Ok(())
}

// The queues and variables of these operators, and the queues `in` and `out`.
#[tactic(auto, unfolding(river_base::specs::Name::is_word, river_base::specs::Name::is_letter, river_base::specs::Name::is_digit))]
fn declare(raw: &mut RawPlan, ops: &Ops) -> Result<(), NoMemory>
    ensures outputs { OnOk result (raw.new.outputs ≡ raw.old.outputs ++ queue_of (codes "out") ∷ []) }
    ensures inputs { OnOk result (raw.new.inputs ≡ raw.old.inputs ++ queue_of (codes "in") ∷ []) }
    ensures queues { OnOk result (raw.new.queues ≡ raw.old.queues ++ map queue_of (own_queues (op_forms ops.now))) }
    ensures vars { OnOk result (raw.new.vars ≡ raw.old.vars ++ all_vars (op_forms ops.now)) }
    ensures tables { raw.new.tables ≡ raw.old.tables }
{
    let out = Name::of(b"out");
    raw.outputs.push(values_in(out))?;
    raw.inputs.push(values_in(Name::of(b"in")))?;
    declare_queues(&mut raw.queues, ops, out)?;
    declare_vars(&mut raw.vars, ops)
}

// A queue of single values.
fn values_in(name: Name) -> Decl
    ensures { result ≡ queue_of name }
{
    Decl {
        name,
        kind: QueueType::Flat(FlatType::Rows(1)),
    }
}

// The queues that the operators write, in order, but for this one.
fn declare_queues(to: &mut Decls, ops: &Ops, out: Name) -> Result<(), NoMemory>
    requires { out ≡ codes "out" }
    ensures { OnOk result (to.new ≡ to.old ++ map queue_of (own_queues (op_forms ops.now))) }
{
    for op in ops.as_slice() {
        declare_written(to, &op.writes, out)?;
    }
    Ok(())
}

// These queues, but for this one.
fn declare_written(to: &mut Decls, names: &Names, out: Name) -> Result<(), NoMemory>
    requires { out ≡ codes "out" }
    ensures { OnOk result (to.new ≡ to.old ++ map queue_of (filter is_own_queue names.now)) }
{
    for name in names.as_slice() {
        if *name != out {
            to.push(values_in(*name))?;
        }
    }
    Ok(())
}

// The variables of all operators.
fn declare_vars(to: &mut Names, ops: &Ops) -> Result<(), NoMemory>
    ensures { OnOk result (to.new ≡ to.old ++ all_vars (op_forms ops.now)) }
{
    for op in ops.as_slice() {
        append(to, &op.vars)?;
    }
    Ok(())
}

// Names behind those that are there.
fn append(to: &mut Names, names: &Names) -> Result<(), NoMemory>
    ensures { OnOk result (to.new ≡ to.old ++ names.now) }
{
    for name in names.as_slice() {
        to.push(*name)?;
    }
    Ok(())
}
