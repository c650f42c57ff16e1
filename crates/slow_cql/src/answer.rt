// The stream of a query over the instants of a run.
ghost use Rattle.std.specs.Prelude.{◌≡◌, ℤ, List, ◌∷◌, [], ◌++◌, All, IfOk, OnOk};
ghost use Rattle.std.specs.List.{AllByRecursion};
ghost use Rattle.river_base.specs.Row.{in_order};
ghost use Rattle.cql_model.specs.Meaning.{KnownStream, named_of, answer};
ghost use Rattle.cql_model.specs.Scopes.{scope_of, column_names};
ghost use Rattle.cql_model.specs.Streams.{Rises, changed, as_stream, spread, item_at};
ghost use Rattle.cql_text.specs.Tree.{columns_of, query_of};
ghost use Rattle.slow_cql.specs.Kept.{is_in_order, input_scope, StandsKept};
ghost use Rattle.slow_cql.specs.Contents.{product_at, content_over, IsNarrowTuple, AreNarrow};

use crate::bag::changed;
use crate::content::content;
use crate::kept::{Input, Kept, inputs};
use crate::names::column_names;
use cql_text::Query;
use river_base::{Batch, Flat, Item, Items, Listed, Name, NoMemory, Rows};
use std::alloc::Global;

/// The stream of a query: its batch at each instant.
pub(crate) fn answer(
    alloc: Global,
    known: &[Kept],
    query: &Query,
    instants: &[i64],
) -> Result<Items, NoMemory>
    requires rises { Rises instants.now }
    requires good { (ks : List KnownStream) × StandsKept instants.now known.now ks × AreNarrow instants.now ks (query_of query.now) }
    ensures { (ks : List KnownStream) → StandsKept instants.now known.now ks
        → IfOk result (λ items. items ≡ spread instants.now (answer instants.now ks (query_of query.now))) }
{
    let inputs = inputs(alloc, known, query.items.as_slice())?;
    over_inputs(alloc, inputs.as_slice(), query, instants)
}

/// The names of its columns.
pub(crate) fn names(
    alloc: Global,
    known: &[Kept],
    query: &Query,
    instants: &[i64],
) -> Result<Listed<Name>, NoMemory>
    requires { Rises instants.now }
    ensures { (ks : List KnownStream) → StandsKept instants.now known.now ks
        → IfOk result (λ names. names ≡ column_names (scope_of (named_of ks) (query_of query.now).items) (query_of query.now).columns) }
{
    let inputs = inputs(alloc, known, query.items.as_slice())?;
    column_names(alloc, inputs.as_slice(), &query.columns)
}

// The stream of a query over its inputs.
fn over_inputs(
    alloc: Global,
    inputs: &[Input<'_>],
    query: &Query,
    instants: &[i64],
) -> Result<Items, NoMemory>
    requires rises { Rises instants.now }
    requires in_order { AllByRecursion (λ i. is_in_order i.entries.now) inputs.now }
    requires narrow { (t : ℤ) → All (IsNarrowTuple (input_scope inputs.now) (columns_of query.now.columns)) (product_at t inputs.now) }
    ensures { IfOk result (λ items. items ≡ spread instants.now (as_stream query.now.kind instants.now (content_over inputs.now (query_of query.now)))) }
{
    let mut items = Items::new(alloc);
    add_batches(alloc, inputs, query, instants, &mut items)?;
    Ok(items)
}

// The same, where there is no batch yet.
fn add_batches(
    alloc: Global,
    inputs: &[Input<'_>],
    query: &Query,
    instants: &[i64],
    items: &mut Items,
) -> Result<(), NoMemory>
    requires none { items.old ≡ [] }
    requires rises { Rises instants.now }
    requires in_order { AllByRecursion (λ i. is_in_order i.entries.now) inputs.now }
    requires narrow { (t : ℤ) → All (IsNarrowTuple (input_scope inputs.now) (columns_of query.now.columns)) (product_at t inputs.now) }
    ensures { OnOk result (items.new ≡ spread instants.now (as_stream query.now.kind instants.now (content_over inputs.now (query_of query.now)))) }
{
    let mut before = Rows::new(alloc);
    for at in instants {
        add_batch(alloc, inputs, query, *at, &mut before, items)?;
    }
    Ok(())
}

// Appends the batch of an instant, and takes the content of the one before for its own.
fn add_batch(
    alloc: Global,
    inputs: &[Input<'_>],
    query: &Query,
    at: i64,
    before: &mut Rows,
    items: &mut Items,
) -> Result<(), NoMemory>
    requires in_order { AllByRecursion (λ i. is_in_order i.entries.now) inputs.now }
    requires narrow { All (IsNarrowTuple (input_scope inputs.now) (columns_of query.now.columns)) (product_at at inputs.now) }
    ensures before { OnOk result (before.new ≡ content_over inputs.now (query_of query.now) at) }
    ensures items { OnOk result (items.new ≡ items.old ++ item_at at (in_order (changed query.now.kind before.old (content_over inputs.now
        (query_of query.now) at))) ∷ []) }
{
    let rows = content(alloc, inputs, query, at)?;
    let changed = changed(alloc, query.kind, before, &rows)?;
    *before = rows;
    items.push(Item::Flat(Flat::Batch(Batch { at, rows: changed })))
}
