// Operators that write and read a queue, and two as one.
ghost use Rattle.std.specs.Prelude.{◌≡◌, ◌<◌, ◌^◌, IfOk, OnOk, [], ◌∷◌, ◌++◌, MatchOption, Some, None, length};
ghost use Rattle.river_kernels.specs.Kern.{kern_of, fused};
ghost use Rattle.river_plan.specs.Forms.{op_form, op_forms};
ghost use Rattle.river_plan.specs.Names.{count};
ghost use Rattle.river_plan.specs.Uses.{writes_it, reads_it};
ghost use Rattle.plan_edits.specs.Lists.{first_with, replaced};
ghost use Rattle.rw_local.specs.Fuse.{fused_op, is_large};

use crate::names::{contains, joined, place, spliced};
use kern_check::nesting;
use river_base::{Duplicate, Name, NoMemory};
use river_plan::{Kernel, Op, Ops};
use std::alloc::Global;

/// The first operator that writes the queue.
pub(crate) fn writer(ops: &Ops, queue: Name) -> Option<&Op>
    ensures { MatchOption result (first_with (writes_it queue) (op_forms ops.now) ≡ None)
        (λ op. first_with (writes_it queue) (op_forms ops.now) ≡ Some (op_form op.now)) }
{
    for op in ops.as_slice() {
        if contains(&op.writes, queue) {
            return Some(op);
        }
    }
    None
}

/// The first operator that reads the queue.
pub(crate) fn reader(ops: &Ops, queue: Name) -> Option<&Op>
    ensures { MatchOption result (first_with (reads_it queue) (op_forms ops.now) ≡ None)
        (λ op. first_with (reads_it queue) (op_forms ops.now) ≡ Some (op_form op.now)) }
{
    for op in ops.as_slice() {
        if contains(&op.reads, queue) {
            return Some(op);
        }
    }
    None
}

/// Whether the two as one nest too deeply, or have too many output ports.
pub(crate) fn is_large(writer: &Op, reader: &Op, queue: Name) -> bool
    requires { 0 < count queue writer.now.writes }
    ensures { result ≡ is_large (fused_op queue (op_form writer.now) (op_form reader.now)) }
{
    let nested = nesting(&writer.kernel).max(nesting(&reader.kernel));
    if nested > 31 {
        return true;
    }
    writer.writes.len() as u128 + reader.writes.len() as u128 > 65
}

/// The two as one.
pub(crate) fn whole(alloc: Global, writer: &Op, reader: &Op, queue: Name) -> Result<Op, NoMemory>
    requires there { 0 < count queue writer.now.writes }
    requires few { length writer.now.writes < 2 ^ 32 }
    ensures { IfOk result (λ op. op_form op ≡ fused_op queue (op_form writer.now) (op_form reader.now)) }
{
    let at = place(&writer.writes, queue);
    Ok(Op {
        label: writer.label,
        reads: writer.reads.copy(alloc)?,
        writes: spliced(alloc, at, &writer.writes, reader.writes.as_slice())?,
        vars: joined(alloc, &writer.vars, &reader.vars)?,
        kernel: fused_kernel(alloc, &writer.kernel, &reader.kernel, at as u32)?,
    })
}

// The second kernel behind this output of the first.
fn fused_kernel(alloc: Global, first: &Kernel, second: &Kernel, at: u32) -> Result<Kernel, NoMemory>
    ensures { IfOk result (λ kernel. kern_of kernel ≡ fused (kern_of first.now) (kern_of second.now) at) }
{
    Ok(Kernel::Fused {
        first: Box::new(alloc, first.copy(alloc)?)?,
        second: Box::new(alloc, second.copy(alloc)?)?,
        at,
    })
}

/// The operators, with the two as one in the place of what writes the queue, and nothing in the place of what reads it.
pub(crate) fn fused_ops(
    alloc: Global,
    ops: &Ops,
    writer: &Op,
    reader: &Op,
    queue: Name,
) -> Result<Ops, NoMemory>
    requires there { 0 < count queue writer.now.writes }
    requires few { length writer.now.writes < 2 ^ 32 }
    ensures { IfOk result (λ all. op_forms all ≡ replaced queue (fused_op queue (op_form writer.now) (op_form reader.now) ∷ []) (op_forms ops.now)) }
{
    let mut all = Ops::new(alloc);
    for op in ops.as_slice() {
        add(alloc, &mut all, op, writer, reader, queue)?;
    }
    Ok(all)
}

// Appends what stands for the operator.
fn add(
    alloc: Global,
    all: &mut Ops,
    op: &Op,
    writer: &Op,
    reader: &Op,
    queue: Name,
) -> Result<(), NoMemory>
    requires there { 0 < count queue writer.now.writes }
    requires few { length writer.now.writes < 2 ^ 32 }
    ensures { OnOk result (op_forms all.new ≡ op_forms all.old
        ++ replaced queue (fused_op queue (op_form writer.now) (op_form reader.now) ∷ []) (op_form op.now ∷ [])) }
{
    let is_writer = contains(&op.writes, queue);
    if is_writer {
        return all.push(whole(alloc, writer, reader, queue)?);
    }
    let is_reader = contains(&op.reads, queue);
    if is_reader {
        return Ok(());
    }
    all.push(op.copy(alloc)?)
}
