// The streams and queries that are known, and the inputs of a query.
ghost use Rattle.std.specs.Prelude.{◌≡◌, ℤ, List, ◌∷◌, ◌++◌, map, OnOk, IfOk};
ghost use Rattle.std.specs.Option.{option_copied};
ghost use Rattle.cql_model.specs.Meaning.{KnownStream};
ghost use Rattle.cql_model.specs.Scopes.{alias_or};
ghost use Rattle.cql_model.specs.Streams.{Timed, Rises, spread};
ghost use Rattle.cql_text.specs.Tree.{source_of, sources_of};
ghost use Rattle.slow_cql.specs.Kept.{entries_at, entries_in, latest, fields_or, entries_or, StandsKept, IsItemInput, AreInputsOf};

use cql_text::{Source, Window};
use river_base::{Flat, Item, Items, Listed, Name, NoMemory, Row, TimedRows};
use std::alloc::Global;

/// What is kept of a stream or a query: its fields, and its rows with their instants, in order.
#[derive(Drop)]
pub(crate) struct Kept {
    pub name: Name,
    pub fields: Listed<Name>,
    pub entries: TimedRows,
}

/// An input of a query: a window on the rows of a stream, under a name.
#[derive(Clone, Copy)]
pub(crate) struct Input<'a> {
    pub name: Name,
    pub fields: &'a [Name],
    pub window: Window,
    pub entries: &'a [(i64, Row)],
}

/// A stream or a query is known besides, with its batch at each instant.
pub(crate) fn declare(
    alloc: Global,
    name: Name,
    fields: Listed<Name>,
    items: &Items,
    known: &mut Listed<Kept>,
) -> Result<(), NoMemory>
    ensures { (ts : List ℤ) (ks : List KnownStream) (s : Timed) → items.now ≡ spread ts s → StandsKept ts known.old ks
        → OnOk result (StandsKept ts known.new (record { named = record { name = name; fields = fields }; rows = s } ∷ ks)) }
{
    let entries = entries(alloc, items.as_slice())?;
    known.push(Kept {
        name,
        fields,
        entries,
    })
}

// The rows of batches with their instants.
fn entries(alloc: Global, items: &[Item]) -> Result<TimedRows, NoMemory>
    ensures { IfOk result (λ all. all ≡ entries_in items.now) }
{
    let mut all = TimedRows::new(alloc);
    for item in items {
        add_entries(item, &mut all)?;
    }
    Ok(all)
}

// Appends those of an item.
fn add_entries(item: &Item, all: &mut TimedRows) -> Result<(), NoMemory>
    ensures { OnOk result (all.new ≡ all.old ++ entries_at item.now) }
{
    match item {
        Item::Flat(Flat::Batch(batch)) => add_rows(batch.at, batch.rows.as_slice(), all),
        Item::Flat(Flat::One(_) | Flat::Change(_)) => Ok(()),
        Item::Pack(_) => Ok(()),
    }
}

// Appends the rows of an instant.
fn add_rows(at: i64, rows: &[Row], all: &mut TimedRows) -> Result<(), NoMemory>
    ensures { OnOk result (all.new ≡ all.old ++ map (λ row. (at, row)) rows.now) }
{
    for row in rows {
        all.push((at, *row))?;
    }
    Ok(())
}

// The latest of this name.
fn latest(known: &[Kept], name: Name) -> Option<&Kept>
    ensures { option_copied result ≡ latest name known.now }
{
    let mut found = None;
    for kept in known {
        if kept.name == name {
            found = Some(kept);
        }
    }
    found
}

// Its fields; none where there is none.
fn fields_of(known: &[Kept], name: Name) -> &[Name]
    ensures { result.now ≡ fields_or (latest name known.now) }
{
    match latest(known, name) {
        Some(kept) => kept.fields.as_slice(),
        None => &[],
    }
}

// Its rows; none where there is none.
fn entries_of(known: &[Kept], name: Name) -> &[(i64, Row)]
    ensures { result.now ≡ entries_or (latest name known.now) }
{
    match latest(known, name) {
        Some(kept) => kept.entries.as_slice(),
        None => &[],
    }
}

// The name of an item: its alias, or its stream's.
fn item_name(source: &Source) -> Name
    ensures { result ≡ alias_or source.now.alias source.now.stream }
{
    match source.alias {
        Some(alias) => alias,
        None => source.stream,
    }
}

// The input of an item.
fn input_of<'a>(known: &'a [Kept], source: &Source) -> Input<'a>
    ensures { (ts : List ℤ) (ks : List KnownStream) → Rises ts → StandsKept ts known.now ks → IsItemInput ts ks (source_of source.now) result }
{
    Input {
        name: item_name(source),
        fields: fields_of(known, source.stream),
        window: source.window,
        entries: entries_of(known, source.stream),
    }
}

/// The inputs of a query's items.
pub(crate) fn inputs<'a>(
    alloc: Global,
    known: &'a [Kept],
    sources: &[Source],
) -> Result<Vec<Input<'a>>, NoMemory>
    ensures { (ts : List ℤ) (ks : List KnownStream) → Rises ts → StandsKept ts known.now ks
        → IfOk result (λ inputs. AreInputsOf ts ks (sources_of sources.now) inputs.items) }
{
    let mut inputs = Vec::new(alloc);
    for source in sources {
        if inputs.push(input_of(known, source)).is_err() {
            return Err(NoMemory);
        }
    }
    Ok(inputs)
}
