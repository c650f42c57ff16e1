// What a CQL program means, by its own definition.
ghost use Rattle.std.specs.Prelude.{◌≡◌, ℤ, [], ◌∷◌, ◌++◌, map, List, IfOk, OnOk};
ghost use Rattle.cql_model.specs.Instants.{program_means};
ghost use Rattle.cql_model.specs.Laws.{AreFiles};
ghost use Rattle.cql_model.specs.Meaning.{KnownStream, stream_known, first_file, other_files, answer, query_known, answers};
ghost use Rattle.cql_model.specs.Streams.{Timed, Rises, at_instant, spread};
ghost use Rattle.cql_text.specs.Tree.{query_of, unit_forms, program_of};
ghost use Rattle.slow_cql.specs.Kept.{StandsKept};
ghost use Rattle.slow_cql.specs.Contents.{AreNarrow, HaveColumns};

use crate::answer::{answer, names};
use crate::kept::{Kept, declare};
use crate::names::add_names;
use brooklet_step::{Lines, Outcome, Tables};
use cql_text::{CqlProgram, Query, Stream, Unit};
use csv_streams::{instants, spread};
use kern_rows::ItemLine;
use river_base::{Items, Listed, NoMemory, Numbers, TimedFiles, TimedRows};
use std::alloc::Global;

/// What a program means for the files of its registered streams: for each query, a batch at each instant. The queries are answered
/// one after another, each over all instants.
pub fn mean_cql(
    alloc: Global,
    program: &CqlProgram,
    files: &TimedFiles,
) -> Result<Outcome, NoMemory>
    requires columns { HaveColumns [] (program_of program.now) }
    requires files { AreFiles (program_of program.now) files.now }
    ensures outs { IfOk result (λ outcome. outcome.outs ≡ program_means (program_of program.now) files.now) }
    ensures tables { IfOk result (λ outcome. outcome.tables ≡ []) }
    ensures counts { IfOk result (λ outcome. outcome.counts ≡ []) }
{
    let instants = instants(alloc, files)?;
    let outs = outputs(alloc, program.units.as_slice(), files.as_slice(), &instants)?;
    Ok(Outcome {
        outs,
        tables: Tables::new(alloc),
        counts: Numbers::new(alloc),
    })
}

// The outputs at these instants.
fn outputs(
    alloc: Global,
    units: &[Unit],
    files: &[TimedRows],
    instants: &Numbers,
) -> Result<Lines, NoMemory>
    requires rises { Rises instants.now }
    requires columns { HaveColumns [] (unit_forms units.now) }
    requires files { AreFiles (unit_forms units.now) files.now }
    ensures { IfOk result (λ outs. outs ≡ map (spread instants.now) (answers instants.now [] (unit_forms units.now) files.now)) }
{
    let mut known = Listed::new(alloc);
    let mut outs = Lines::new(alloc);
    answered(alloc, units, files, instants, &mut known, &mut outs)?;
    Ok(outs)
}

// The same, where nothing is known and there is no output yet.
fn answered(
    alloc: Global,
    units: &[Unit],
    files: &[TimedRows],
    instants: &Numbers,
    known: &mut Listed<Kept>,
    outs: &mut Lines,
) -> Result<(), NoMemory>
    requires none { known.old ≡ [] }
    requires no_output { outs.old ≡ [] }
    requires rises { Rises instants.now }
    requires columns { HaveColumns [] (unit_forms units.now) }
    requires files { AreFiles (unit_forms units.now) files.now }
    ensures { OnOk result (outs.new ≡ map (spread instants.now) (answers instants.now [] (unit_forms units.now) files.now)) }
{
    let mut rest = files;
    for part in units {
        match part {
            Unit::Register(stream) => {
                register(alloc, stream, rest, instants, known)?;
                rest = other_files(rest);
            }
            Unit::Query(query) => add_query(alloc, query, instants, known, outs)?,
        }
    }
    Ok(())
}

// A registered stream is known besides, with the rows of the first of these files.
fn register(
    alloc: Global,
    stream: &Stream,
    files: &[TimedRows],
    instants: &Numbers,
    known: &mut Listed<Kept>,
) -> Result<(), NoMemory>
    ensures { (ks : List KnownStream) → StandsKept instants.now known.old ks
        → OnOk result (StandsKept instants.now known.new (stream_known stream.now.name stream.now.fields.items files.now ∷ ks)) }
{
    let items = first_items(alloc, files, instants)?;
    declare_stream(alloc, stream, &items, known)
}

// A stream is known besides, with its batch at each instant.
fn declare_stream(
    alloc: Global,
    stream: &Stream,
    items: &Items,
    known: &mut Listed<Kept>,
) -> Result<(), NoMemory>
    ensures { (ts : List ℤ) (ks : List KnownStream) (s : Timed) → items.now ≡ spread ts s → StandsKept ts known.old ks
        → OnOk result (StandsKept ts known.new (record { named = record { name = stream.now.name; fields = stream.now.fields.items }; rows = s } ∷ ks)) }
{
    let mut fields = Listed::new(alloc);
    add_names(stream.fields.as_slice(), &mut fields)?;
    declare(alloc, stream.name, fields, items, known)
}

// The batches of the first file; without rows where there is none.
fn first_items(alloc: Global, files: &[TimedRows], instants: &Numbers) -> Result<Items, NoMemory>
    ensures { IfOk result (λ items. items ≡ spread instants.now (at_instant (first_file files.now))) }
{
    match files.split_first() {
        Some((file, _)) => spread(alloc, file, instants),
        None => spread(alloc, &TimedRows::new(alloc), instants),
    }
}

// The files behind the first.
fn other_files(files: &[TimedRows]) -> &[TimedRows]
    ensures { result.now ≡ other_files files.now }
{
    match files.split_first() {
        Some((_, others)) => others,
        None => files,
    }
}

// A query is known besides, with its answer, which is an output.
fn add_query(
    alloc: Global,
    query: &Query,
    instants: &Numbers,
    known: &mut Listed<Kept>,
    outs: &mut Lines,
) -> Result<(), NoMemory>
    requires rises { Rises instants.now }
    requires good { (ks : List KnownStream) × StandsKept instants.now known.old ks × AreNarrow instants.now ks (query_of query.now) }
    ensures known { (ks : List KnownStream) → StandsKept instants.now known.old ks
        → OnOk result (StandsKept instants.now known.new (query_known instants.now ks (query_of query.now) ∷ ks)) }
    ensures outs { (ks : List KnownStream) → StandsKept instants.now known.old ks
        → OnOk result (outs.new ≡ outs.old ++ spread instants.now (answer instants.now ks (query_of query.now)) ∷ []) }
{
    let items = answer(alloc, known.as_slice(), query, instants.as_slice())?;
    declare_answer(alloc, query, instants, &items, known)?;
    outs.push(ItemLine::from_items(alloc, items))
}

// A query is known besides, where these items are its answer.
fn declare_answer(
    alloc: Global,
    query: &Query,
    instants: &Numbers,
    items: &Items,
    known: &mut Listed<Kept>,
) -> Result<(), NoMemory>
    requires { Rises instants.now }
    ensures { (ks : List KnownStream) → items.now ≡ spread instants.now (answer instants.now ks (query_of query.now)) → StandsKept instants.now known.old ks
        → OnOk result (StandsKept instants.now known.new (query_known instants.now ks (query_of query.now) ∷ ks)) }
{
    let fields = names(alloc, known.as_slice(), query, instants.as_slice())?;
    declare(alloc, query.name, fields, items, known)
}
