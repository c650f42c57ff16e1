// Fusion of the writer and the reader of a queue.
ghost use Rattle.std.specs.Prelude.{◌≡◌, ◌<◌, ◌^◌, Some, IfOk, OnOk, ◌++◌, IsTrue, ◌↔◌, length, take, drop, ◌+◌};
ghost use Rattle.river_plan.specs.Forms.{plan_form, op_form, op_forms, decl_names, queue_names};
ghost use Rattle.river_plan.specs.Names.{count};
ghost use Rattle.river_plan.specs.Uses.{writes_it, reads_it};
ghost use Rattle.river_plan.specs.Valid.{IsPlan};
ghost use Rattle.plan_edits.specs.Lists.{place_of_name, undeclared, first_with};
ghost use Rattle.rw_local.specs.Fuse.{fuse_of, fuse_two, fused_plan};
ghost use Rattle.plan_edits.specs.Answered.{IsAnswered};

use crate::names::share;
use crate::ops::{fused_ops, is_large, reader, writer};
use plan_check::plan_of;
use plan_edits::{Unfit, outer_lists};
use river_base::{Duplicate, Name, NoMemory};
use river_plan::{Decl, Decls, Op, Ops, Plan, RawPlan};
use std::alloc::Global;

/// Operator fusion (DEBS 2012): the plan with the writer and the reader of a queue as one operator, or the first
/// condition that fails.
pub fn fuse(alloc: Global, plan: &Plan, queue: &Name) -> Result<Plan, Unfit>
    ensures { IsAnswered (fuse_of plan.now queue.now) result }
{
    let raw = plan.raw();
    if !is_queue(raw, *queue) {
        return Err(Unfit::U1);
    }
    let Some(writer) = writer(&raw.ops, *queue) else {
        return Err(Unfit::U2);
    };
    let Some(reader) = reader(&raw.ops, *queue) else {
        return Err(Unfit::U2);
    };
    fuse_two(alloc, raw, writer, reader, *queue)
}

// The plan with these two as one, where they may be.
fn fuse_two(
    alloc: Global,
    raw: &RawPlan,
    writer: &Op,
    reader: &Op,
    queue: Name,
) -> Result<Plan, Unfit>
    requires valid { IsPlan (plan_form raw.now) }
    requires written { first_with (writes_it queue) (op_forms raw.now.ops) ≡ Some (op_form writer.now) }
    requires read { first_with (reads_it queue) (op_forms raw.now.ops) ≡ Some (op_form reader.now) }
    ensures { IsAnswered (fuse_two (plan_form raw.now) queue (op_form writer.now) (op_form reader.now)) result }
{
    if reader.reads.len() != 1 {
        return Err(Unfit::U3);
    }
    if is_large(writer, reader, queue) {
        return Err(Unfit::U4);
    }
    if share(&writer.vars, &reader.vars) {
        return Err(Unfit::U5);
    }
    let lists = fused_lists(alloc, raw, writer, reader, queue)?;
    Ok(plan_of(alloc, lists)?)
}

// The lists after the step.
fn fused_lists(
    alloc: Global,
    raw: &RawPlan,
    writer: &Op,
    reader: &Op,
    queue: Name,
) -> Result<RawPlan, NoMemory>
    requires there { 0 < count queue (decl_names raw.now.queues) }
    requires written { 0 < count queue writer.now.writes }
    requires few { length writer.now.writes < 2 ^ 32 }
    ensures { IfOk result (λ lists. plan_form lists ≡ fused_plan (plan_form raw.now) queue (op_form writer.now) (op_form reader.now)) }
{
    let queues = undeclared(alloc, &raw.queues, queue)?;
    let ops = fused_ops(alloc, &raw.ops, writer, reader, queue)?;
    with_lists(alloc, raw, queues, ops)
}

/// The lists with these queues and operators; the others stay.
pub(crate) fn with_lists(
    alloc: Global,
    raw: &RawPlan,
    queues: Decls,
    ops: Ops,
) -> Result<RawPlan, NoMemory>
    ensures { IfOk result (λ lists. plan_form lists ≡ record (plan_form raw.now) { queues = queues; ops = op_forms ops }) }
{
    let vars = raw.vars.copy(alloc)?;
    let (outputs, inputs, tables) = outer_lists(alloc, raw)?;
    Ok(RawPlan {
        outputs,
        inputs,
        queues,
        tables,
        vars,
        ops,
    })
}

// Whether the plan has a queue of this name.
fn is_queue(raw: &RawPlan, queue: Name) -> bool
    ensures { IsTrue result ↔ 0 < count queue (queue_names (plan_form raw.now)) }
{
    if declares(&raw.outputs, queue) {
        return true;
    }
    if declares(&raw.inputs, queue) {
        return true;
    }
    declares(&raw.queues, queue)
}

// Whether the name is declared here.
fn declares(decls: &Decls, queue: Name) -> bool
    ensures { IsTrue result ↔ 0 < count queue (decl_names decls.now) }
{
    for decl in decls.as_slice() {
        if decl.name == queue {
            return true;
        }
    }
    false
}

// The declarations, without that of this name.
fn undeclared(alloc: Global, decls: &Decls, queue: Name) -> Result<Decls, NoMemory>
    requires { 0 < count queue (decl_names decls.now) }
    ensures { IfOk result (λ rest. rest ≡ undeclared queue decls.now) }
{
    let at = decl_place(decls, queue);
    without(alloc, decls, at)
}

// The declarations, without that at this place.
fn without(alloc: Global, decls: &Decls, at: usize) -> Result<Decls, NoMemory>
    requires { at < length decls.now }
    ensures { IfOk result (λ rest. rest ≡ take at decls.now ++ drop (at + 1) decls.now) }
{
    let mut rest = Decls::new(alloc);
    add_decls(&mut rest, &decls.as_slice()[..at])?;
    add_decls(&mut rest, &decls.as_slice()[at + 1..])?;
    Ok(rest)
}

// The place of the first declaration of this name, or the length.
pub(crate) fn decl_place(decls: &Decls, queue: Name) -> usize
    ensures { result ≡ place_of_name queue (decl_names decls.now) }
{
    let mut at = 0;
    for decl in decls.as_slice() {
        if decl.name == queue {
            return at;
        }
        at += 1;
    }
    at
}

/// Appends these declarations.
pub(crate) fn add_decls(all: &mut Decls, decls: &[Decl]) -> Result<(), NoMemory>
    ensures { OnOk result (all.new ≡ all.old ++ decls.now) }
{
    for decl in decls {
        all.push(*decl)?;
    }
    Ok(())
}
