// Units read.
ghost use Rattle.std.specs.Prelude.{◌≡◌};
ghost use Rattle.text_forms.specs.Gives.{Gives};
ghost use Rattle.cql_text.specs.Grammar.{kind_named};
ghost use Rattle.cql_text.specs.Reading.{kind_at, where_at, behind_at, selected_at, query_at, names_at, fields_at, stream_at, unit_at};
ghost use Rattle.cql_text.specs.Tree.{condition_of, unit_form};
ghost use Rattle.cql_text.specs.View.{behind_of, selected_of, query_unit, stream_unit};

use crate::column::in_round;
use crate::keywords::{is_at_keyword, is_keyword, keyword, plain_name, takes_keyword};
use crate::value::value;
use crate::window::sources;
use crate::{Columns, Kind, Query, Scalar, Source, Stream, Unit};
use river_base::Name;
use std::alloc::Global;
use text_forms::{ParseFault, Reader, Units};
use text_tokens::Symbol;

// The kind of this word.
fn kind_of(text: &[u8]) -> Option<Kind>
    ensures { result ≡ kind_named text.now }
{
    if is_keyword(text, b"istream") {
        Some(Kind::Istream)
    } else if is_keyword(text, b"dstream") {
        Some(Kind::Dstream)
    } else if is_keyword(text, b"rstream") {
        Some(Kind::Rstream)
    } else {
        None
    }
}

// The kind of a query.
#[tactic(auto, unfolding(crate::specs::Reading::kind_at))]
fn kind(reader: &mut Reader<'_>) -> Result<Kind, ParseFault>
    ensures { Gives (λ kind. kind) result reader.new (kind_at reader.old) }
{
    let text = reader.name()?;
    match kind_of(text) {
        Some(kind) => Ok(kind),
        None => Err(ParseFault::Syntax),
    }
}

// `Where` and a condition, or nothing.
#[tactic(auto, unfolding(crate::specs::Reading::where_at))]
fn condition(reader: &mut Reader<'_>, alloc: Global) -> Result<Option<Scalar>, ParseFault>
    ensures { Gives condition_of result reader.new (where_at reader.old) }
{
    if !takes_keyword(reader, b"where") {
        return Ok(None);
    }
    Ok(Some(value(reader, alloc, 128)?))
}

// What stands behind `From`.
#[derive(Drop)]
struct Behind {
    items: Vec<Source>,
    condition: Option<Scalar>,
}

#[tactic(auto, unfolding(crate::specs::Reading::behind_at))]
fn after_from(reader: &mut Reader<'_>, alloc: Global) -> Result<Behind, ParseFault>
    ensures { Gives behind_of result reader.new (behind_at reader.old) }
{
    let items = sources(reader, alloc)?;
    let condition = condition(reader, alloc)?;
    reader.expect(&[Symbol::Semicolon])?;
    Ok(Behind { items, condition })
}

// What stands behind `Select`.
#[derive(Drop)]
struct Selected {
    kind: Kind,
    columns: Columns,
    behind: Behind,
}

#[tactic(auto, unfolding(crate::specs::Reading::selected_at))]
fn after_select(reader: &mut Reader<'_>, alloc: Global) -> Result<Selected, ParseFault>
    ensures { Gives selected_of result reader.new (selected_at reader.old) }
{
    let kind = kind(reader)?;
    let columns = in_round(reader, alloc)?;
    keyword(reader, b"from")?;
    let behind = after_from(reader, alloc)?;
    Ok(Selected {
        kind,
        columns,
        behind,
    })
}

// A query.
#[tactic(auto, unfolding(crate::specs::Reading::query_at))]
fn query(reader: &mut Reader<'_>, alloc: Global) -> Result<Query, ParseFault>
    ensures { Gives query_unit result reader.new (query_at reader.old) }
{
    keyword(reader, b"query")?;
    let name = plain_name(reader)?;
    reader.expect(&[Symbol::Colon])?;
    keyword(reader, b"select")?;
    let selected = after_select(reader, alloc)?;
    Ok(Query {
        name,
        kind: selected.kind,
        columns: selected.columns,
        items: selected.behind.items,
        condition: selected.behind.condition,
    })
}

// Names, at least one.
#[tactic(auto, unfolding(crate::specs::Reading::names_at), using(crate::proofs::Lists::names))]
fn names(reader: &mut Reader<'_>, alloc: Global) -> Result<Vec<Name>, ParseFault>
    ensures { Gives (λ list. list.items) result reader.new (names_at reader.old) }
{
    let mut list = Vec::new(alloc);
    list.push(plain_name(reader)?)?;
    'items: while reader.takes(Symbol::Comma) {
        list.push(plain_name(reader)?)?;
    }
    Ok(list)
}

// The fields of a stream, up to the end of the unit.
#[tactic(auto, unfolding(crate::specs::Reading::fields_at))]
fn fields(reader: &mut Reader<'_>, alloc: Global) -> Result<Vec<Name>, ParseFault>
    ensures { Gives (λ list. list.items) result reader.new (fields_at reader.old) }
{
    reader.expect(&[Symbol::Open])?;
    let fields = names(reader, alloc)?;
    reader.expect(&[Symbol::Close, Symbol::Semicolon])?;
    Ok(fields)
}

// A stream that is registered.
#[tactic(auto, unfolding(crate::specs::Reading::stream_at))]
fn stream(reader: &mut Reader<'_>, alloc: Global) -> Result<Stream, ParseFault>
    ensures { Gives stream_unit result reader.new (stream_at reader.old) }
{
    keyword(reader, b"register")?;
    keyword(reader, b"stream")?;
    let name = plain_name(reader)?;
    let fields = fields(reader, alloc)?;
    Ok(Stream { name, fields })
}

// A unit.
#[tactic(auto, unfolding(crate::specs::Reading::unit_at))]
fn unit(reader: &mut Reader<'_>, alloc: Global) -> Result<Unit, ParseFault>
    ensures { Gives unit_form result reader.new (unit_at reader.old) }
{
    if is_at_keyword(reader, b"register") {
        Ok(Unit::Register(stream(reader, alloc)?))
    } else {
        Ok(Unit::Query(query(reader, alloc)?))
    }
}

/// CQL, for the reader that reads the units of any language.
pub(crate) struct CqlGrammar;

impl Units for CqlGrammar {
    ghost use Rattle.cql_text.specs.Reading.{unit_at};
    ghost use Rattle.cql_text.specs.Tree.{UnitForm, unit_form};

    type Unit = Unit;

    ghost UnitTree = { UnitForm };

    ghost unit_tree = { unit_form };

    ghost unit = { λ _. unit_at };

    fn unit(&self, reader: &mut Reader<'_>, alloc: Global) -> Result<Unit, ParseFault> {
        unit(reader, alloc)
    }
}
