// A selection changes places with the operator that feeds it.
ghost use Rattle.std.specs.Prelude.{◌≡◌, ◌<◌, ℕ, List, IfOk, OnOk, MatchOption, Some, None, Err, [], ◌∷◌, ◌++◌, ◌+◌, take, drop, length, slice_get};
ghost use Rattle.work_code.specs.Term.{term};
ghost use Rattle.river_kernels.specs.Kern.{kern_of, select};
ghost use Rattle.plan_edits.specs.declared.unfit.Unfit.TheVariants.{H1};
ghost use Rattle.river_plan.specs.Forms.{PlanForm, OpForm, plan_form, op_form, op_forms, decl_names};
ghost use Rattle.river_plan.specs.Names.{count};
ghost use Rattle.river_plan.specs.Kinds.{kind_of};
ghost use Rattle.river_plan.specs.Uses.{named_it, writes_it};
ghost use Rattle.river_plan.specs.Valid.{IsPlan};
ghost use Rattle.plan_edits.specs.Lists.{first_with, replaced, retyped};
ghost use Rattle.rw_local.specs.Hoist.{hoist_kernel, raised, lowered, hoisted_ops, hoisted_plan, hoist_at, hoist_past, hoist_of};
ghost use Rattle.rw_local.specs.HoistCode.{SelectsAt};
ghost use Rattle.plan_edits.specs.Answered.{IsAnswered};

use crate::fusing::{add_decls, decl_place, with_lists};
use crate::kinds::first_width;
use crate::names::{contains, spliced};
use crate::ops::writer;
use crate::past::passes;
use plan_check::plan_of;
use plan_edits::{Unfit, kind_of};
use river_base::{Duplicate, Name, NoMemory};
use river_plan::{Decl, Decls, Kernel, Names, Op, Ops, Plan, QueueType, RawPlan};
use std::alloc::Global;
use work_code::{Expr, Formula};

// A selection, with its condition, its input and its output.
#[derive(Clone, Copy)]
struct Selection<'a> {
    op: &'a Op,
    cond: &'a Expr,
    mid: Name,
    out: Name,
}

// A selection and the operator that fed it, as they stand after the step.
#[derive(Clone, Copy)]
struct Pair<'a> {
    /// The selection.
    above: &'a Op,
    /// The operator that fed it.
    below: &'a Op,
    /// At which input of the operator the selection stands.
    side: usize,
    /// The condition of the selection there.
    cond: &'a Expr,
    /// What the selection reads.
    src: Name,
    /// What the selection writes, and the operator reads.
    mid: Name,
    /// What the operator writes.
    out: Name,
}

/// A selection that is pushed down (the CQL paper): the plan with the selection of this label before the operator that
/// fed it, or the first condition that fails.
pub fn hoist(alloc: Global, plan: &Plan, label: &Name) -> Result<Plan, Unfit>
    ensures { IsAnswered (hoist_of plan.now label.now) result }
{
    let raw = plan.raw();
    match selected(raw, *label) {
        Some(above) => hoist_past(alloc, raw, &above),
        None => Err(Unfit::H1),
    }
}

// The operator of this label, where it selects.
fn selected(raw: &RawPlan, label: Name) -> Option<Selection<'_>>
    ensures { MatchOption result (hoist_of (plan_form raw.now) label ≡ Err H1)
        (λ s. SelectsAt (plan_form raw.now) label (op_form s.op.now) (term s.cond.now) s.mid s.out) }
{
    let Some(op) = labelled(&raw.ops, label) else {
        return None;
    };
    let Some(cond) = condition(&op.kernel) else {
        return None;
    };
    let Some(mid) = first(&op.reads) else {
        return None;
    };
    let Some(out) = first(&op.writes) else {
        return None;
    };
    Some(Selection { op, cond, mid, out })
}

// The plan with the selection before the operator that feeds it.
fn hoist_past(alloc: Global, raw: &RawPlan, above: &Selection<'_>) -> Result<Plan, Unfit>
    requires valid { IsPlan (plan_form raw.now) }
    requires selects { (l : List ℕ) × SelectsAt (plan_form raw.now) l (op_form above.now.op.now) (term above.now.cond.now) above.now.mid above.now.out }
    ensures { let p = plan_form raw.now in let a = above.now in
        IsAnswered (hoist_past p (op_form a.op.now) (term a.cond.now) a.mid a.out (first_with (writes_it a.mid) p.ops)) result }
{
    let Some(below) = writer(&raw.ops, above.mid) else {
        return Err(Unfit::H2);
    };
    if below.writes.len() != 1 {
        return Err(Unfit::H2);
    }
    let width = first_width(raw, &below.reads);
    match passes(alloc, width, &below.kernel, above.cond) {
        Ok((side, moved)) => hoist_to(alloc, raw, above, below, side, &moved),
        Err(fault) => Err(fault),
    }
}

// The plan with the selection at this input of the operator below, by this condition.
fn hoist_to(
    alloc: Global,
    raw: &RawPlan,
    above: &Selection<'_>,
    below: &Op,
    side: usize,
    cond: &Expr,
) -> Result<Plan, Unfit>
    requires { let p = plan_form raw.now in let a = above.now in (src : List ℕ) → slice_get below.now.reads side ≡ Some src
        → (0 < count a.mid (decl_names p.queues)) × IsPlan (hoisted_plan p (op_form a.op.now) (op_form below.now) side (term cond.now) src a.mid a.out) }
    ensures { let p = plan_form raw.now in let a = above.now in
        IsAnswered (hoist_at p (op_form a.op.now) (op_form below.now) a.mid a.out (side, term cond.now) (slice_get below.now.reads side)) result }
{
    if side >= below.reads.len() {
        return Err(Unfit::H2);
    }
    let pair = Pair {
        above: above.op,
        below,
        side,
        cond,
        src: *below.reads.at(side),
        mid: above.mid,
        out: above.out,
    };
    let lists = hoisted_lists(alloc, raw, &pair)?;
    Ok(plan_of(alloc, lists)?)
}

// The lists after the step.
fn hoisted_lists(alloc: Global, raw: &RawPlan, pair: &Pair<'_>) -> Result<RawPlan, NoMemory>
    requires there { 0 < count pair.now.mid (decl_names raw.now.queues) }
    requires side { pair.now.side < length pair.now.below.now.reads }
    ensures { let x = pair.now in IfOk result (λ lists. plan_form lists
        ≡ hoisted_plan (plan_form raw.now) (op_form x.above.now) (op_form x.below.now) x.side (term x.cond.now) x.src x.mid x.out) }
{
    let kind = kind_of(raw, &pair.src);
    let queues = retyped(alloc, &raw.queues, pair.mid, kind)?;
    let ops = replaced(alloc, &raw.ops, pair)?;
    with_lists(alloc, raw, queues, ops)
}

// In the place of what writes the queue the two, and nothing in the place of what reads it.
fn replaced(alloc: Global, ops: &Ops, pair: &Pair<'_>) -> Result<Ops, NoMemory>
    requires { pair.now.side < length pair.now.below.now.reads }
    ensures { let x = pair.now in IfOk result (λ all. op_forms all
        ≡ replaced x.mid (hoisted_ops (op_form x.above.now) (op_form x.below.now) x.side (term x.cond.now) x.src x.mid x.out) (op_forms ops.now)) }
{
    let mut all = Ops::new(alloc);
    for op in ops.as_slice() {
        add(alloc, &mut all, op, pair)?;
    }
    Ok(all)
}

// Appends what stands for the operator.
fn add(alloc: Global, all: &mut Ops, op: &Op, pair: &Pair<'_>) -> Result<(), NoMemory>
    requires { pair.now.side < length pair.now.below.now.reads }
    ensures { let x = pair.now in OnOk result (op_forms all.new ≡ op_forms all.old
        ++ replaced x.mid (hoisted_ops (op_form x.above.now) (op_form x.below.now) x.side (term x.cond.now) x.src x.mid x.out) (op_form op.now ∷ [])) }
{
    if contains(&op.writes, pair.mid) {
        return add_pair(alloc, all, pair);
    }
    if contains(&op.reads, pair.mid) {
        return Ok(());
    }
    all.push(op.copy(alloc)?)
}

// Appends the two.
fn add_pair(alloc: Global, all: &mut Ops, pair: &Pair<'_>) -> Result<(), NoMemory>
    requires { pair.now.side < length pair.now.below.now.reads }
    ensures { let x = pair.now in OnOk result (op_forms all.new ≡ op_forms all.old
        ++ hoisted_ops (op_form x.above.now) (op_form x.below.now) x.side (term x.cond.now) x.src x.mid x.out) }
{
    all.push(raised(alloc, pair)?)?;
    all.push(lowered(alloc, pair)?)
}

// The selection, with its new condition and queues.
fn raised(alloc: Global, pair: &Pair<'_>) -> Result<Op, NoMemory>
    ensures { let x = pair.now in IfOk result (λ op. op_form op ≡ raised (op_form x.above.now) (term x.cond.now) x.src x.mid) }
{
    let cond = Formula::of(alloc, pair.cond.copy(alloc)?)?;
    Ok(Op {
        label: pair.above.label,
        reads: Names::one(alloc, pair.src)?,
        writes: Names::one(alloc, pair.mid)?,
        vars: pair.above.vars.copy(alloc)?,
        kernel: Kernel::Select(cond),
    })
}

// The operator that it has passed.
fn lowered(alloc: Global, pair: &Pair<'_>) -> Result<Op, NoMemory>
    requires { pair.now.side < length pair.now.below.now.reads }
    ensures { let x = pair.now in IfOk result (λ op. op_form op ≡ lowered (op_form x.below.now) x.side x.mid x.out) }
{
    let below = pair.below;
    Ok(Op {
        label: below.label,
        reads: spliced(alloc, pair.side, &below.reads, &[pair.mid])?,
        writes: Names::one(alloc, pair.out)?,
        vars: below.vars.copy(alloc)?,
        kernel: below.kernel.copy(alloc)?,
    })
}

// The first name.
fn first(names: &Names) -> Option<Name>
    ensures { result ≡ slice_get names.now 0 }
{
    if names.is_empty() {
        return None;
    }
    Some(*names.at(0))
}

// The first operator of this label.
fn labelled(ops: &Ops, label: Name) -> Option<&Op>
    ensures { MatchOption result (first_with (named_it label) (op_forms ops.now) ≡ None)
        (λ op. first_with (named_it label) (op_forms ops.now) ≡ Some (op_form op.now)) }
{
    for op in ops.as_slice() {
        if op.label == label {
            return Some(op);
        }
    }
    None
}

// The declarations, that of this name with another type.
fn retyped(alloc: Global, decls: &Decls, name: Name, kind: QueueType) -> Result<Decls, NoMemory>
    requires { 0 < count name (decl_names decls.now) }
    ensures { IfOk result (λ all. all ≡ retyped name kind decls.now) }
{
    let at = decl_place(decls, name);
    with_at(alloc, decls, at, Decl { name, kind })
}

// The declarations, with another at this place.
fn with_at(alloc: Global, decls: &Decls, at: usize, decl: Decl) -> Result<Decls, NoMemory>
    requires { at < length decls.now }
    ensures { IfOk result (λ all. all ≡ take at decls.now ++ (decl ∷ drop (at + 1) decls.now)) }
{
    let mut all = Decls::new(alloc);
    add_decls(&mut all, &decls.as_slice()[..at])?;
    all.push(decl)?;
    add_decls(&mut all, &decls.as_slice()[at + 1..])?;
    Ok(all)
}

// The condition of a selection.
fn condition(kernel: &Kernel) -> Option<&Expr>
    ensures { MatchOption result ((p : PlanForm) (u : OpForm) → hoist_kernel p u (kern_of kernel.now) ≡ Err H1)
        (λ e. kern_of kernel.now ≡ select (term e.now)) }
{
    match kernel {
        Kernel::Select(cond) => Some(cond.expr()),
        _ => None,
    }
}
