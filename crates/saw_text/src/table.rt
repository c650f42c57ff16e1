// Tables read.
ghost use Rattle.std.specs.Prelude.{◌≡◌};
ghost use Rattle.text_forms.specs.Gives.{Gives};
ghost use Rattle.saw_text.specs.Grammar.{is_maximum};
ghost use Rattle.saw_text.specs.Reading.{named_field_at, field_at, column_at, columns_at, best_at, kind_at, weight_field_at, in_table_at, table_at};
ghost use Rattle.saw_text.specs.Tree.{table_form};

use crate::names::user;
use crate::{Field, Kind, Table};
use river_base::Name;
use std::alloc::Global;
use text_forms::{ParseFault, Reader, closed, is};
use text_tokens::Symbol;

// What stands behind the name of a field.
#[tactic(auto, unfolding(crate::specs::Reading::named_field_at))]
fn named_field(reader: &mut Reader<'_>, name: Name) -> Result<Field, ParseFault>
    ensures { Gives (λ f. f) result reader.new (named_field_at name reader.old) }
{
    reader.expect(&[Symbol::Colon])?;
    reader.word(b"int")?;
    Ok(Field { name: Some(name) })
}

// A field.
#[tactic(auto, unfolding(crate::specs::Reading::field_at, crate::specs::Reading::field_after))]
fn field(reader: &mut Reader<'_>) -> Result<Field, ParseFault>
    ensures { Gives (λ f. f) result reader.new (field_at reader.old) }
{
    let word = reader.name()?;
    if is(word, b"int") {
        return Ok(Field { name: None });
    }
    match user(word) {
        Some(name) => named_field(reader, name),
        None => Err(ParseFault::Syntax),
    }
}

// A field in square brackets.
#[tactic(auto, unfolding(crate::specs::Reading::column_at, text_blocks::specs::Parts::square_at))]
fn column(reader: &mut Reader<'_>, brackets: u32) -> Result<Field, ParseFault>
    ensures { Gives (λ f. f) result reader.new (column_at brackets reader.old) }
{
    reader.opens(Symbol::OpenBracket, brackets)?;
    let field = field(reader)?;
    reader.expect(&[Symbol::CloseBracket])?;
    Ok(field)
}

// Fields in square brackets.
#[tactic(auto, unfolding(crate::specs::Reading::columns_at), using(crate::proofs::Lists::columns))]
fn columns(reader: &mut Reader<'_>, alloc: Global, brackets: u32) -> Result<Vec<Field>, ParseFault>
    ensures { Gives (λ fs. fs.items) result reader.new (columns_at brackets reader.old) }
{
    let mut list = Vec::new(alloc);
    'items: while reader.is_at(Symbol::OpenBracket) {
        let Field { name } = column(reader, brackets)?;
        list.push(Field { name })?;
    }
    Ok(list)
}

// How many rows a maximum keeps, in brackets.
#[tactic(auto, unfolding(crate::specs::Reading::best_at, text_blocks::specs::Parts::round_at))]
fn best(reader: &mut Reader<'_>, brackets: u32) -> Result<u32, ParseFault>
    ensures { Gives (λ n. n) result reader.new (best_at brackets reader.old) }
{
    reader.opens(Symbol::Open, brackets)?;
    let best = reader.count()?;
    closed(reader, best, Symbol::Close)
}

// The kind of a table.
#[tactic(auto, unfolding(crate::specs::Reading::kind_at, crate::specs::Reading::kind_after))]
fn kind(reader: &mut Reader<'_>, brackets: u32) -> Result<Kind, ParseFault>
    ensures { Gives (λ k. k) result reader.new (kind_at brackets reader.old) }
{
    let word = reader.name()?;
    if is(word, b"sum") {
        return Ok(Kind::Sum);
    }
    if is(word, b"collection") {
        return Ok(Kind::Collection);
    }
    if is(word, b"maximum") {
        return Ok(Kind::Maximum(best(reader, brackets)?));
    }
    Err(ParseFault::Syntax)
}

// `weight` and a field, or nothing.
#[tactic(auto, unfolding(crate::specs::Reading::weight_field_at))]
fn weight_field(reader: &mut Reader<'_>) -> Result<Option<Field>, ParseFault>
    ensures { Gives (λ f. f) result reader.new (weight_field_at reader.old) }
{
    if !reader.is_at_word(b"weight") {
        return Ok(None);
    }
    reader.skip();
    Ok(Some(field(reader)?))
}

// Whether a table of this kind has a weight.
fn is_maximum(kind: Kind) -> bool
    ensures { result ≡ is_maximum kind }
{
    match kind {
        Kind::Sum | Kind::Collection => false,
        Kind::Maximum(_) => true,
    }
}

// What stands behind `NAME: table`, whether it has a weight or none.
#[tactic(auto, unfolding(crate::specs::Reading::in_table_at))]
fn in_table(
    reader: &mut Reader<'_>,
    alloc: Global,
    brackets: u32,
    name: Name,
) -> Result<Table, ParseFault>
    ensures { Gives table_form result reader.new (in_table_at name brackets reader.old) }
{
    let kind = kind(reader, brackets)?;
    let indexes = columns(reader, alloc, brackets)?;
    reader.word(b"of")?;
    let value = field(reader)?;
    let weight = weight_field(reader)?;
    let table = Table {
        name,
        kind,
        indexes,
        value,
        weight,
    };
    closed(reader, table, Symbol::Semicolon)
}

/// What stands behind `NAME: table`.
#[tactic(auto, unfolding(crate::specs::Reading::table_at))]
pub(crate) fn table(
    reader: &mut Reader<'_>,
    alloc: Global,
    brackets: u32,
    name: Name,
) -> Result<Table, ParseFault>
    ensures { Gives table_form result reader.new (table_at name brackets reader.old) }
{
    let table = in_table(reader, alloc, brackets, name)?;
    if is_maximum(table.kind) == table.weight.is_some() {
        Ok(table)
    } else {
        Err(ParseFault::Syntax)
    }
}
