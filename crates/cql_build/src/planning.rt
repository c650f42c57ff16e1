// The plan of a program.
ghost use Rattle.std.specs.Prelude.{◌≡◌, ◌≤◌, ◌++◌, [], Option, Some, None, false, IfOk, IfErr, OnOk, length};
ghost use Rattle.std.specs.List.{AllByRecursion};
ghost use Rattle.std.specs.Option.{is_some};
ghost use Rattle.river_plan.specs.Forms.{plan_form, op_forms, empty_form};
ghost use Rattle.river_plan.specs.Uses.{all_vars};
ghost use Rattle.river_plan.specs.Valid.{FirstFault};
ghost use Rattle.river_plan.specs.declared.fault.PlanFault as plan_fault;
ghost use Rattle.cql_model.specs.Plannable.{IsPlannable, exceeds};
ghost use Rattle.cql_model.specs.Judged.{AreSpoken, HaveShortNames, first_fault, refusal_of};
ghost use Rattle.cql_model.specs.Program.{registered, all_uses};
ghost use Rattle.cql_model.specs.Plan.{input_decls, input_copies, input_ops, plan_of};
ghost use Rattle.cql_build.specs.Grown.{Grew};
ghost use Rattle.cql_build.specs.Planned.{IsWhyRefused, IsLimited, limit_at, refused_of, unit_inputs, unit_copies, unit_copying, IsShortRegistered, IsNarrow};
ghost use Rattle.cql_text.specs.Tree.{unit_form, unit_forms};

use crate::columns::append;
use crate::judge::first_fault;
use crate::output::{carried, copy_input};
use crate::queries::queries;
use crate::uses::StreamUses;
use cql_model::{Fault, Refusal};
use cql_text::Unit;
use plan_check::check;
use river_base::{MOST_OPERATORS, NoMemory};
use river_plan::{Decl, Decls, Names, Ops, Plan, PlanFault, RawPlan};
use std::alloc::Global;

/// Why a program has no plan.
#[derive(Clone, Copy)]
pub enum Refused {
    /// The program is refused.
    Program(Refusal),
    /// There was no memory.
    NoMemory,
}

impl From<NoMemory> for Refused {
    ghost use Rattle.std.specs.Prelude.{◌≡◌};
    ghost use Rattle.cql_build.specs.declared.planning.Refused.TheVariants as refused;

    ghost from_gives = { λ _ r. r ≡ refused.NoMemory };

    fn from(_: NoMemory) -> Self {
        Refused::NoMemory
    }
}

/// The plan of a program; or the first fault of its units, one after another; or, where they have none, `Limit` of the last
/// unit where the plan exceeds a limit of plans.
pub fn plan(alloc: Global, units: &[Unit]) -> Result<Plan, Refused>
    requires spoken { AreSpoken (unit_forms units.now) }
    requires short { HaveShortNames (unit_forms units.now) }
    ensures plan { IfOk result (λ plan. (refusal_of (unit_forms units.now) ≡ None) × (plan ≡ plan_of (unit_forms units.now))) }
    ensures refused { IfErr result (IsWhyRefused (unit_forms units.now)) }
{
    if let Some(refusal) = first_fault(alloc, units)? {
        return Err(Refused::Program(refusal));
    }
    faultless(alloc, units)
}

// The same, where no unit has a fault.
fn faultless(alloc: Global, units: &[Unit]) -> Result<Plan, Refused>
    requires accepted { IsPlannable (unit_forms units.now) }
    requires short { HaveShortNames (unit_forms units.now) }
    requires none { first_fault [] 0 1 (unit_forms units.now) ≡ None }
    ensures plan { IfOk result (λ plan. (refusal_of (unit_forms units.now) ≡ None) × (plan ≡ plan_of (unit_forms units.now))) }
    ensures refused { IfErr result (IsWhyRefused (unit_forms units.now)) }
{
    let mut uses = StreamUses::of(alloc, units)?;
    if uses.all.len() > MOST_OPERATORS as usize {
        return Err(limited(units.len()));
    }
    let raw = lists(alloc, &mut uses, units)?;
    checked(alloc, raw, units.len())
}

// A limit is told at this unit.
fn limited(unit: usize) -> Refused
    ensures { result ≡ limit_at unit }
{
    Refused::Program(Refusal {
        unit,
        fault: Fault::Limit,
    })
}

// The plan of these lists; or a limit of plans, told at this unit. They have no other fault.
fn checked(alloc: Global, raw: RawPlan, unit: usize) -> Result<Plan, Refused>
    requires { (o : Option plan_fault.PlanFault) → FirstFault (plan_form raw) o → exceeds (plan_form raw) ≡ is_some o }
    ensures plan { IfOk result (λ plan. (exceeds (plan_form raw) ≡ false) × (plan ≡ plan_form raw)) }
    ensures refused { IfErr result (IsLimited (plan_form raw) unit) }
{
    match check(alloc, raw) {
        Ok(plan) => Ok(plan),
        Err(fault) => Err(told(fault, unit)),
    }
}

// What is told of a program at this unit where this is told of its plan.
fn told(fault: PlanFault, unit: usize) -> Refused
    ensures { result ≡ refused_of fault unit }
{
    match fault {
        PlanFault::NoMemory => Refused::NoMemory,
        PlanFault::P1(_)
        | PlanFault::P2(_)
        | PlanFault::P3(_)
        | PlanFault::P4(_)
        | PlanFault::P5(_)
        | PlanFault::P6(_)
        | PlanFault::P7(_)
        | PlanFault::P8 { .. }
        | PlanFault::P9(_) => limited(unit),
    }
}

// The lists of the plan.
fn lists(alloc: Global, uses: &mut StreamUses, units: &[Unit]) -> Result<RawPlan, NoMemory>
    requires accepted { IsPlannable (unit_forms units.now) }
    requires short { HaveShortNames (unit_forms units.now) }
    requires few { length uses.old.all ≤ 256 }
    requires inputs { uses.old.inputs ≡ registered (unit_forms units.now) }
    requires all { uses.old.all ≡ all_uses (unit_forms units.now) }
    requires past { uses.old.past ≡ [] }
    ensures { IfOk result (λ raw. plan_form raw ≡ plan_of (unit_forms units.now)) }
{
    let mut raw = RawPlan::new(alloc);
    fill(alloc, &mut raw, uses, units)?;
    Ok(raw)
}

// Fills lists that are empty.
fn fill(
    alloc: Global,
    raw: &mut RawPlan,
    uses: &mut StreamUses,
    units: &[Unit],
) -> Result<(), NoMemory>
    requires empty { plan_form raw.old ≡ empty_form }
    requires accepted { IsPlannable (unit_forms units.now) }
    requires short { HaveShortNames (unit_forms units.now) }
    requires few { length uses.old.all ≤ 256 }
    requires inputs { uses.old.inputs ≡ registered (unit_forms units.now) }
    requires all { uses.old.all ≡ all_uses (unit_forms units.now) }
    requires past { uses.old.past ≡ [] }
    ensures { OnOk result (plan_form raw.new ≡ plan_of (unit_forms units.now)) }
{
    declare_inputs(&mut raw.inputs, units)?;
    copy_inputs(alloc, raw, uses, units)?;
    queries(alloc, raw, uses, units)?;
    declare_vars(&mut raw.vars, &raw.ops)
}

// The registered streams are inputs.
fn declare_inputs(to: &mut Decls, units: &[Unit]) -> Result<(), NoMemory>
    requires { AllByRecursion IsNarrow (unit_forms units.now) }
    ensures { OnOk result (to.new ≡ to.old ++ input_decls (unit_forms units.now)) }
{
    for part in units {
        declare_input(to, part)?;
    }
    Ok(())
}

// A registered stream.
fn declare_input(to: &mut Decls, part: &Unit) -> Result<(), NoMemory>
    requires { IsNarrow (unit_form part.now) }
    ensures { OnOk result (to.new ≡ to.old ++ unit_inputs (unit_form part.now)) }
{
    match part {
        Unit::Register(registered) => to.push(Decl {
            name: registered.name,
            kind: carried(registered),
        }),
        Unit::Query(_) => Ok(()),
    }
}

// The registered streams that are used more than once are copied.
fn copy_inputs(
    alloc: Global,
    raw: &mut RawPlan,
    uses: &StreamUses,
    units: &[Unit],
) -> Result<(), NoMemory>
    requires short { HaveShortNames (unit_forms units.now) }
    requires few { length uses.now.all ≤ 256 }
    requires narrow { AllByRecursion IsNarrow (unit_forms units.now) }
    ensures { OnOk result (Grew raw.old raw.new [] (input_copies uses.now.all (unit_forms units.now)) (input_ops uses.now.all (unit_forms units.now))) }
{
    for part in units {
        copy_unit(alloc, raw, uses, part)?;
    }
    Ok(())
}

// One of them.
fn copy_unit(
    alloc: Global,
    raw: &mut RawPlan,
    uses: &StreamUses,
    part: &Unit,
) -> Result<(), NoMemory>
    requires short { IsShortRegistered (unit_form part.now) }
    requires few { length uses.now.all ≤ 256 }
    requires narrow { IsNarrow (unit_form part.now) }
    ensures { OnOk result (Grew raw.old raw.new [] (unit_copies uses.now.all (unit_form part.now)) (unit_copying uses.now.all (unit_form part.now))) }
{
    match part {
        Unit::Register(registered) => copy_input(alloc, raw, uses, registered),
        Unit::Query(_) => Ok(()),
    }
}

// The variables of all operators.
fn declare_vars(to: &mut Names, ops: &Ops) -> Result<(), NoMemory>
    ensures { OnOk result (to.new ≡ to.old ++ all_vars (op_forms ops.now)) }
{
    for op in ops.as_slice() {
        append(to, op.vars.as_slice())?;
    }
    Ok(())
}
