// The names of a plan: that none stands twice, that what operators name is declared, and their places.
ghost use Rattle.std.specs.Prelude.{◌≡◌, [], None, Err, IfOk, OnOk, IfErr};
ghost use Rattle.river_plan.specs.First.{Along, IsFirst};
ghost use Rattle.river_plan.specs.Forms.{plan_form, op_form, op_forms, queue_names, variable_names, labels as labels_of};
ghost use Rattle.river_plan.specs.Faults.{IsNew, UndeclaredAt};
ghost use Rattle.river_plan.specs.Valid.{IsJudged};
ghost use Rattle.river_plan.specs.Wired.{IsWired, AreNamed};

use crate::lists::{labels, queue_names, variable_names};
use crate::name_set::NameSet;
use crate::search::{add_new, first_missing, name_again};
use crate::wired::wiring_by;
use river_base::{Name, NoMemory};
use river_plan::{Named, Op, Ops, PlanFault, RawPlan, Wiring};
use std::alloc::Global;

/// The wiring of lists of which no name stands twice and all that operators name are declared; otherwise the first
/// name at fault.
pub(crate) fn wiring_of(alloc: Global, raw: &RawPlan) -> Result<Wiring, PlanFault>
    ensures wired { IfOk result (IsWired (plan_form raw.now)) }
    ensures named { OnOk result (AreNamed (plan_form raw.now)) }
    ensures fault { IfErr result (λ fault. IsJudged (plan_form raw.now) (Err fault)) }
{
    let mut queues = NameSet::new(alloc);
    add_queues(alloc, raw, &mut queues)?;
    wiring_among(alloc, raw, &queues)
}

// The same, where the queues are known.
fn wiring_among(alloc: Global, raw: &RawPlan, queues: &NameSet) -> Result<Wiring, PlanFault>
    requires names { queues.now ≡ queue_names (plan_form raw.now) }
    requires once { IsFirst IsNew (queue_names (plan_form raw.now)) None }
    ensures wired { IfOk result (IsWired (plan_form raw.now)) }
    ensures named { OnOk result (AreNamed (plan_form raw.now)) }
    ensures fault { IfErr result (λ fault. IsJudged (plan_form raw.now) (Err fault)) }
{
    let mut variables = NameSet::new(alloc);
    add_variables(alloc, raw, &mut variables)?;
    wiring_between(alloc, raw, queues, &variables)
}

// The same, where the variables are known too.
fn wiring_between(
    alloc: Global,
    raw: &RawPlan,
    queues: &NameSet,
    variables: &NameSet,
) -> Result<Wiring, PlanFault>
    requires queues { queues.now ≡ queue_names (plan_form raw.now) }
    requires variables { variables.now ≡ variable_names (plan_form raw.now) }
    requires queues_once { IsFirst IsNew (queue_names (plan_form raw.now)) None }
    requires variables_once { IsFirst IsNew (variable_names (plan_form raw.now)) None }
    ensures wired { IfOk result (IsWired (plan_form raw.now)) }
    ensures named { OnOk result (AreNamed (plan_form raw.now)) }
    ensures fault { IfErr result (λ fault. IsJudged (plan_form raw.now) (Err fault)) }
{
    if let Some(label) = label_again(alloc, &raw.ops)? {
        return Err(PlanFault::P1(Named::Label(label)));
    }
    if let Some(named) = undeclared_in(&raw.ops, queues, variables) {
        return Err(PlanFault::P2(named));
    }
    Ok(wiring_by(alloc, raw, queues, variables)?)
}

// Adds the names of the queues to the empty set; the first that stood before is at fault.
fn add_queues(alloc: Global, raw: &RawPlan, queues: &mut NameSet) -> Result<(), PlanFault>
    requires { queues.old ≡ [] }
    ensures all { OnOk result (queues.new ≡ queue_names (plan_form raw.now)) }
    ensures once { OnOk result (IsFirst IsNew (queue_names (plan_form raw.now)) None) }
    ensures fault { IfErr result (λ fault. IsJudged (plan_form raw.now) (Err fault)) }
{
    let names = queue_names(alloc, raw)?;
    match add_new(queues, &names)? {
        Some(name) => Err(PlanFault::P1(Named::Queue(name))),
        None => Ok(()),
    }
}

// Adds the names of the variables to the empty set; the first that stood before is at fault.
fn add_variables(alloc: Global, raw: &RawPlan, variables: &mut NameSet) -> Result<(), PlanFault>
    requires empty { variables.old ≡ [] }
    requires queues_once { IsFirst IsNew (queue_names (plan_form raw.now)) None }
    ensures all { OnOk result (variables.new ≡ variable_names (plan_form raw.now)) }
    ensures once { OnOk result (IsFirst IsNew (variable_names (plan_form raw.now)) None) }
    ensures fault { IfErr result (λ fault. IsJudged (plan_form raw.now) (Err fault)) }
{
    let names = variable_names(alloc, raw)?;
    match add_new(variables, &names)? {
        Some(name) => Err(PlanFault::P1(Named::Variable(name))),
        None => Ok(()),
    }
}

// The first label that stood before.
fn label_again(alloc: Global, ops: &Ops) -> Result<Option<Name>, NoMemory>
    ensures { IfOk result (IsFirst IsNew (labels_of (op_forms ops.now))) }
{
    let names = labels(alloc, ops)?;
    name_again(alloc, &names)
}

// The first name in these operators that is in neither set.
fn undeclared_in(ops: &Ops, queues: &NameSet, variables: &NameSet) -> Option<Named>
    ensures { Along (λ before op. UndeclaredAt queues.now variables.now op) [] (op_forms ops.now) result }
{
    for op in ops.as_slice() {
        if let Some(named) = undeclared_at(op, queues, variables) {
            return Some(named);
        }
    }
    None
}

// The first name in this operator that is in neither set.
fn undeclared_at(op: &Op, queues: &NameSet, variables: &NameSet) -> Option<Named>
    ensures { UndeclaredAt queues.now variables.now (op_form op.now) result }
{
    if let Some(name) = first_missing(&op.reads, queues) {
        return Some(Named::Queue(name));
    }
    if let Some(name) = first_missing(&op.writes, queues) {
        return Some(Named::Queue(name));
    }
    first_missing(&op.vars, variables).map(Named::Variable)
}
