// Fission.
ghost use Rattle.plan_edits.specs.Answered.{IsAnswered};
ghost use Rattle.std.specs.Prelude.{◌≡◌, ◌≤◌, Some};
ghost use Rattle.river_plan.specs.Forms.{OpForm, op_forms, plan_form};
ghost use Rattle.river_plan.specs.Valid.{IsPlan};
ghost use Rattle.rw_fission.specs.Asked.{fission_of, HoldsOfAnswer, by_op, fitting};
ghost use Rattle.rw_fission.specs.Code.{Placed, IsPlace, IsJudgedAs, IsPlaceOf, formed_plan};
ghost use Rattle.rw_fission.specs.May.{IsPlanIfApart};
ghost use Rattle.rw_fission.specs.Made.{made_of};
ghost use Rattle.plan_edits.specs.declared.unfit.Unfit.TheVariants as unfit_kinds;
ghost use Rattle.river_plan.specs.declared.fault.PlanFault.TheVariants as fault_kinds;

use crate::form::{Form, form_of};
use crate::lists::split_lists;
use crate::made::{are_short, made_names};
use plan_check::check;
use plan_edits::{Unfit, kind_of};
use river_base::{Name, QueueType};
use river_plan::{Ops, Plan, PlanFault, RawPlan};
use std::alloc::Global;

// The place of the first operator of a label.
fn place_of(ops: &Ops, label: &Name) -> Option<usize>
    ensures { Placed label.now (op_forms ops.now) result }
{
    for place in 0..ops.len() {
        if ops.at(place).label == *label {
            return Some(place);
        }
    }
    None
}

// Splits the operator at the place of a label.
fn split_place(
    alloc: Global,
    raw: &RawPlan,
    place: usize,
    label: &Name,
    n: u32,
) -> Result<Plan, Unfit>
    requires valid { IsPlan (plan_form raw.now) }
    requires place { IsPlace label.now (op_forms raw.now.ops) place }
    ensures { (op : OpForm) → IsPlaceOf op raw.now.ops place → HoldsOfAnswer (λ u. u ≡ by_op (plan_form raw.now) label.now n (Some op)) result }
{
    if n < 2 || 16 < n {
        return Err(Unfit::N2);
    }
    let op = raw.ops.at(place);
    if op.reads.len() != 1 {
        return Err(Unfit::N3);
    }
    let kind = kind_of(raw, op.reads.at(0));
    match form_of(raw, op, kind) {
        None => Err(Unfit::N4),
        Some(form) => split_form(alloc, raw, place, kind, form, label, n),
    }
}

// Splits the operator of this form.
fn split_form(
    alloc: Global,
    raw: &RawPlan,
    place: usize,
    kind: QueueType,
    form: Form,
    label: &Name,
    n: u32,
) -> Result<Plan, Unfit>
    requires some { 1 ≤ n }
    requires few { n ≤ 16 }
    requires place { IsPlace label.now (op_forms raw.now.ops) place }
    requires valid { (op : OpForm) → IsPlaceOf op raw.now.ops place → IsPlanIfApart (formed_plan (plan_form raw.now) place op (made_of label.now) n kind form) }
    ensures { (op : OpForm) → IsPlaceOf op raw.now.ops place
        → let m = made_of label.now in HoldsOfAnswer (λ u. u ≡ fitting m n (formed_plan (plan_form raw.now) place op m n kind form)) result }
{
    if !are_short(label, n) {
        return Err(Unfit::N5);
    }
    let names = made_names(alloc, label, n)?;
    let lists = split_lists(alloc, raw, place, kind, form, &names, label, n)?;
    judged(alloc, lists)
}

// The plan of these lists, where they are valid.
fn judged(alloc: Global, lists: RawPlan) -> Result<Plan, Unfit>
    ensures { IsJudgedAs (plan_form lists) result }
{
    match check(alloc, lists) {
        Ok(plan) => Ok(plan),
        Err(fault) => Err(refusal(fault)),
    }
}

// What a fault of the new plan is answered with.
fn refusal(fault: PlanFault) -> Unfit
    ensures memory { fault ≡ fault_kinds.NoMemory → result ≡ unfit_kinds.NoMemory }
    ensures other { (fault ≡ fault_kinds.NoMemory → ⊥) → result ≡ unfit_kinds.N5 }
{
    match fault {
        PlanFault::NoMemory => Unfit::NoMemory,
        _ => Unfit::N5,
    }
}

/// Splits the operator of a label into n replicas.
pub fn fission(alloc: Global, plan: &Plan, label: &Name, n: u32) -> Result<Plan, Unfit>
    ensures { IsAnswered (fission_of plan.now label.now n) result }
{
    let raw = plan.raw();
    match place_of(&raw.ops, label) {
        None => Err(Unfit::N1),
        Some(place) => split_place(alloc, raw, place, label, n),
    }
}
