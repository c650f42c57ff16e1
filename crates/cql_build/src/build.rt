// The queues and operators of a query.
ghost use Rattle.std.specs.Prelude.{◌≡◌, ◌≤◌, ◌<◌, ◌^◌, ◌+◌, ◌∷◌, [], IfOk, OnOk, length, drop};
ghost use Rattle.std.specs.List.{AllByRecursion};
ghost use Rattle.river_kernels.specs.Fits.{stream, relation};
ghost use Rattle.river_kernels.specs.Kern.{window, cross};
ghost use Rattle.river_plan.specs.Forms.{op_form};
ghost use Rattle.cql_model.specs.Judged.{IsShortName};
ghost use Rattle.cql_model.specs.Program.{streams_of};
ghost use Rattle.cql_text.specs.Tree.{Chosen};
ghost use Rattle.cql_model.specs.Plan.{op, decl, widths_of, columns_width, w_name, cross_ops, cross_last};
ghost use Rattle.cql_model.specs.Plan.{select_last, project_ops, project_last, project_decls};
ghost use Rattle.cql_model.specs.KernelWords.{kernel_window};
ghost use Rattle.cql_build.specs.Grown.{Grew, Used, AddsWindows, AddsSelect, product_decls};
ghost use Rattle.cql_text.specs.Tree.{window_of, sources_of, chosen_of, columns_of, condition_of};
ghost use Rattle.cql_build.specs.Views.{scope};

use crate::Item;
use crate::names::{Mark, marked};
use crate::ops::{cross_op, project_op, select_op, window_op};
use crate::uses::StreamUses;
use cql_text::{Column, Columns, Scalar, Source};
use river_base::{Name, NoMemory};
use river_plan::{Decl, FlatType, Op, QueueType, RawPlan};
use std::alloc::Global;

/// A stream of rows that are so wide.
pub(crate) fn stream(width: usize) -> QueueType
    requires { width < 2 ^ 32 }
    ensures { result ≡ stream width }
{
    QueueType::Flat(FlatType::Stream(width as u32))
}

// A relation of rows that are so wide.
fn relation(width: usize) -> QueueType
    requires { width < 2 ^ 32 }
    ensures { result ≡ relation width }
{
    QueueType::Flat(FlatType::Relation(width as u32))
}

// Another operator, and the queue of its own that it writes.
fn add(raw: &mut RawPlan, op: Op, name: Name, kind: QueueType) -> Result<(), NoMemory>
    ensures { OnOk result (Grew raw.old raw.new [] (decl name kind ∷ []) (op_form op ∷ [])) }
{
    raw.ops.push(op)?;
    raw.queues.push(Decl { name, kind })
}

/// The windows of a query's items.
pub(crate) fn windows(
    alloc: Global,
    raw: &mut RawPlan,
    uses: &mut StreamUses,
    query: Name,
    sources: &[Source],
    items: &[Item<'_>],
) -> Result<(), NoMemory>
    requires each { length items.now ≡ length sources.now }
    requires narrow { widths_of (scope items.now) ≤ 16 }
    requires short { length query ≤ 40 }
    requires streams { AllByRecursion IsShortName (streams_of (sources_of sources.now)) }
    ensures grew { OnOk result (AddsWindows uses.old query (sources_of sources.now) (scope items.now) raw.old raw.new) }
    ensures used { OnOk result (Used uses.old uses.new (streams_of (sources_of sources.now))) }
{
    for i in 0..sources.len() {
        let source = &sources[i];
        let name = marked(alloc, query, Mark::Window(i + 1))?;
        let kind = relation(items[i].fields.len());
        let from = uses.source(alloc, source.stream)?;
        window(alloc, raw, name, kind, source, from)?;
    }
    Ok(())
}

// One of them.
fn window(
    alloc: Global,
    raw: &mut RawPlan,
    name: Name,
    kind: QueueType,
    source: &Source,
    from: Name,
) -> Result<(), NoMemory>
    ensures { OnOk result (Grew raw.old raw.new [] (decl name kind ∷ [])
        (op name (window (kernel_window (window_of source.now.window))) (from ∷ []) (name ∷ []) (name ∷ []) ∷ [])) }
{
    let op = window_op(alloc, name, source.window, from)?;
    add(raw, op, name, kind)
}

/// The products of a query's items; the queue of the last.
pub(crate) fn crosses(
    alloc: Global,
    raw: &mut RawPlan,
    query: Name,
    sources: &[Source],
    items: &[Item<'_>],
) -> Result<Name, NoMemory>
    requires some { 0 < length items.now }
    requires each { length items.now ≡ length sources.now }
    requires short { length query ≤ 40 }
    requires narrow { widths_of (scope items.now) ≤ 16 }
    ensures grew { OnOk result (Grew raw.old raw.new [] (product_decls query (scope items.now))
        (cross_ops query (w_name query 1) 2 (drop 1 (sources_of sources.now)))) }
    ensures last { IfOk result (λ name. name ≡ cross_last query (w_name query 1) 2 (drop 1 (sources_of sources.now))) }
{
    let mut last = marked(alloc, query, Mark::Window(1))?;
    let mut width = items[0].fields.len();
    for i in 1..sources.len() {
        let right = marked(alloc, query, Mark::Window(i + 1))?;
        let name = marked(alloc, query, Mark::Cross(i + 1))?;
        width += items[i].fields.len();
        cross(alloc, raw, name, width, last, right)?;
        last = name;
    }
    Ok(last)
}

// One of them.
fn cross(
    alloc: Global,
    raw: &mut RawPlan,
    name: Name,
    width: usize,
    left: Name,
    right: Name,
) -> Result<(), NoMemory>
    requires { width < 2 ^ 32 }
    ensures { OnOk result (Grew raw.old raw.new [] (decl name (relation width) ∷ []) (op name cross (left ∷ right ∷ []) (name ∷ []) (name ∷ []) ∷ [])) }
{
    let kind = relation(width);
    let op = cross_op(alloc, name, left, right)?;
    add(raw, op, name, kind)
}

/// The condition of a query; the queue of what it lets pass.
pub(crate) fn select(
    alloc: Global,
    raw: &mut RawPlan,
    query: Name,
    items: &[Item<'_>],
    last: Name,
    condition: &Option<Scalar>,
) -> Result<Name, NoMemory>
    requires short { length query ≤ 40 }
    requires narrow { widths_of (scope items.now) ≤ 16 }
    ensures grew { OnOk result (AddsSelect query (scope items.now) last (condition_of condition.now) raw.old raw.new) }
    ensures last { IfOk result (λ name. name ≡ select_last query last (condition_of condition.now)) }
{
    let Some(value) = condition else {
        return Ok(last);
    };
    let name = marked(alloc, query, Mark::Select)?;
    let kind = relation(width(items));
    let op = select_op(alloc, name, items, value, last)?;
    add(raw, op, name, kind)?;
    Ok(name)
}

/// The width of the product of items.
pub(crate) fn width(items: &[Item<'_>]) -> usize
    requires { widths_of (scope items.now) ≤ 16 }
    ensures { result ≡ widths_of (scope items.now) }
{
    let mut width = 0;
    for item in items {
        width += item.fields.len();
    }
    width
}

/// The columns of a query; the queue of their values.
pub(crate) fn project(
    alloc: Global,
    raw: &mut RawPlan,
    query: Name,
    items: &[Item<'_>],
    last: Name,
    columns: &Columns,
) -> Result<Name, NoMemory>
    requires short { length query ≤ 40 }
    requires narrow { widths_of (scope items.now) ≤ 16 }
    requires few { columns_width (scope items.now) (columns_of columns.now) < 2 ^ 32 }
    ensures grew { OnOk result (Grew raw.old raw.new [] (project_decls query (columns_of columns.now))
        (project_ops query (scope items.now) last (columns_of columns.now))) }
    ensures last { IfOk result (λ name. name ≡ project_last query last (columns_of columns.now)) }
{
    match columns {
        Columns::Star => Ok(last),
        Columns::Chosen(list) => chosen(alloc, raw, query, items, last, list.as_slice()),
    }
}

// The columns that are chosen; the queue of their values.
fn chosen(
    alloc: Global,
    raw: &mut RawPlan,
    query: Name,
    items: &[Item<'_>],
    last: Name,
    columns: &[Column],
) -> Result<Name, NoMemory>
    requires short { length query ≤ 40 }
    requires narrow { widths_of (scope items.now) ≤ 16 }
    requires few { length columns.now < 2 ^ 32 }
    ensures grew { OnOk result (Grew raw.old raw.new [] (project_decls query (Chosen (chosen_of columns.now)))
        (project_ops query (scope items.now) last (Chosen (chosen_of columns.now)))) }
    ensures last { IfOk result (λ name. name ≡ project_last query last (Chosen (chosen_of columns.now))) }
{
    let name = marked(alloc, query, Mark::Project)?;
    let kind = relation(columns.len());
    let op = project_op(alloc, name, items, columns, last)?;
    add(raw, op, name, kind)?;
    Ok(name)
}
