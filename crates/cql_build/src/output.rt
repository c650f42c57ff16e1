// The streams of queries, and copies of streams.
ghost use Rattle.std.specs.Prelude.{◌≡◌, ◌≤◌, ◌<◌, ◌^◌, ◌++◌, ◌∷◌, [], codes, IfOk, OnOk, length};
ghost use Rattle.river_kernels.specs.Fits.{stream};
ghost use Rattle.river_kernels.specs.Kern.{duplicate, streamer};
ghost use Rattle.river_plan.specs.Names.{count};
ghost use Rattle.cql_model.specs.Plan.{op, decl, decls_of, copy_names, at_word, out_name, out_decls};
ghost use Rattle.cql_build.specs.Grown.{Grew, AddsOwnCopies, AddsCopies, stream_ops};
ghost use Rattle.cql_model.specs.KernelWords.{streamer_of};

use crate::build::stream;
use crate::columns::append;
use crate::names::{Mark, marked};
use crate::ops::{copy_op, stream_op};
use crate::uses::StreamUses;
use cql_text::{Kind, Stream};
use river_base::{Name, NoMemory};
use river_plan::{Decl, Decls, Names, QueueType, RawPlan};
use std::alloc::Global;

/// The stream of a query, which is an output, and the copies for those that use it.
pub(crate) fn output(
    alloc: Global,
    raw: &mut RawPlan,
    query: Name,
    kind: Kind,
    last: Name,
    uses: usize,
    width: usize,
) -> Result<(), NoMemory>
    requires short { length query ≤ 40 }
    requires few { uses ≤ 256 }
    requires narrow { width < 2 ^ 32 }
    ensures { OnOk result (Grew raw.old raw.new (decl query (stream width) ∷ []) (out_decls query width uses) (stream_ops query kind last uses)) }
{
    let carried = stream(width);
    let to = out_name(alloc, query, uses)?;
    stream_to(alloc, raw, query, kind, last, to)?;
    raw.outputs.push(Decl {
        name: query,
        kind: carried,
    })?;
    if uses > 0 {
        copy_output(alloc, raw, query, to, uses, carried)?;
    }
    Ok(())
}

// The queue to which the stream of a query goes: its own, or where it is used, one that is copied.
fn out_name(alloc: Global, query: Name, uses: usize) -> Result<Name, NoMemory>
    requires { length query ≤ 40 }
    ensures { IfOk result (λ name. name ≡ out_name query uses) }
{
    match uses {
        0 => Ok(query),
        _ => marked(alloc, query, Mark::Output),
    }
}

// The operator that makes the stream.
fn stream_to(
    alloc: Global,
    raw: &mut RawPlan,
    query: Name,
    kind: Kind,
    last: Name,
    to: Name,
) -> Result<(), NoMemory>
    requires { length query ≤ 40 }
    ensures { OnOk result (Grew raw.old raw.new [] []
        (op (at_word query (codes "i")) (streamer (streamer_of kind)) (last ∷ []) (to ∷ []) (at_word query (codes "i") ∷ []) ∷ [])) }
{
    let name = marked(alloc, query, Mark::Stream)?;
    let op = stream_op(alloc, name, kind, last, to)?;
    raw.ops.push(op)
}

// The copies of a query's stream, and the query's own queue.
fn copy_output(
    alloc: Global,
    raw: &mut RawPlan,
    query: Name,
    from: Name,
    uses: usize,
    kind: QueueType,
) -> Result<(), NoMemory>
    requires short { length query ≤ 40 }
    requires few { uses ≤ 256 }
    ensures { OnOk result (AddsOwnCopies query from uses kind raw.old raw.new) }
{
    raw.queues.push(Decl { name: from, kind })?;
    let mut writes = Names::one(alloc, query)?;
    let made = copies(alloc, query, uses)?;
    declare(&mut raw.queues, made.as_slice(), kind)?;
    append(&mut writes, made.as_slice())?;
    copy(alloc, raw, query, from, writes)
}

/// The copies of a registered stream that is used more than once.
pub(crate) fn copy_input(
    alloc: Global,
    raw: &mut RawPlan,
    uses: &StreamUses,
    registered: &Stream,
) -> Result<(), NoMemory>
    requires short { length registered.now.name ≤ 40 }
    requires few { length uses.now.all ≤ 256 }
    requires narrow { length registered.now.fields.items ≤ 16 }
    ensures { let name = registered.now.name in OnOk result (AddsCopies name (length registered.now.fields.items) (count name uses.now.all) raw.old raw.new) }
{
    let count = uses.count(registered.name);
    if count < 2 {
        return Ok(());
    }
    let kind = carried(registered);
    let writes = copies(alloc, registered.name, count)?;
    declare(&mut raw.queues, writes.as_slice(), kind)?;
    copy(alloc, raw, registered.name, registered.name, writes)
}

/// What a registered stream carries.
pub(crate) fn carried(registered: &Stream) -> QueueType
    requires { length registered.now.fields.items ≤ 16 }
    ensures { result ≡ stream (length registered.now.fields.items) }
{
    let fields = registered.fields.as_slice();
    stream(fields.len())
}

// The operator that copies a stream to these queues.
fn copy(
    alloc: Global,
    raw: &mut RawPlan,
    base: Name,
    from: Name,
    writes: Names,
) -> Result<(), NoMemory>
    requires short { length base ≤ 40 }
    requires few { length writes < 2 ^ 32 }
    ensures { OnOk result (Grew raw.old raw.new [] [] (op (at_word base (codes "d")) (duplicate (length writes)) (from ∷ []) writes [] ∷ [])) }
{
    let count = writes.len() as u32;
    let name = marked(alloc, base, Mark::Copies)?;
    let op = copy_op(alloc, name, count, from, writes)?;
    raw.ops.push(op)
}

// The names of so many copies.
fn copies(alloc: Global, base: Name, count: usize) -> Result<Names, NoMemory>
    requires { length base ≤ 40 }
    ensures { IfOk result (λ names. names ≡ copy_names base 0 count) }
{
    let mut names = Names::new(alloc);
    for k in 0..count {
        names.push(marked(alloc, base, Mark::Copy(k + 1))?)?;
    }
    Ok(names)
}

// Queues of one type, behind those that are declared.
fn declare(to: &mut Decls, names: &[Name], kind: QueueType) -> Result<(), NoMemory>
    ensures { OnOk result (to.new ≡ to.old ++ decls_of names.now kind) }
{
    for name in names {
        to.push(Decl { name: *name, kind })?;
    }
    Ok(())
}
