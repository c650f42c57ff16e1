// Columns read.
ghost use Rattle.std.specs.Prelude.{map};
ghost use Rattle.text_forms.specs.Gives.{Gives};
ghost use Rattle.cql_text.specs.Reading.{as_at, column_at, chosen_at, columns_at, in_round_at};
ghost use Rattle.cql_text.specs.Tree.{column_of, columns_of};

use crate::keywords::{plain_name, takes_keyword};
use crate::value::value;
use crate::{Column, Columns};
use river_base::Name;
use std::alloc::Global;
use text_forms::{ParseFault, Reader};
use text_tokens::Symbol;

// `As` and a name, or nothing.
#[tactic(auto, unfolding(crate::specs::Reading::as_at))]
fn as_name(reader: &mut Reader<'_>) -> Result<Option<Name>, ParseFault>
    ensures { Gives (λ name. name) result reader.new (as_at reader.old) }
{
    if !takes_keyword(reader, b"as") {
        return Ok(None);
    }
    Ok(Some(plain_name(reader)?))
}

// A column; one bracket is open already.
#[tactic(auto, unfolding(crate::specs::Reading::column_at))]
fn column(reader: &mut Reader<'_>, alloc: Global) -> Result<Column, ParseFault>
    ensures { Gives column_of result reader.new (column_at reader.old) }
{
    let value = value(reader, alloc, 127)?;
    let alias = as_name(reader)?;
    Ok(Column { value, alias })
}

// Columns, at least one.
#[tactic(auto, unfolding(crate::specs::Reading::chosen_at), using(crate::proofs::Lists::columns))]
fn chosen(reader: &mut Reader<'_>, alloc: Global) -> Result<Vec<Column>, ParseFault>
    ensures { Gives (λ list. map column_of list.items) result reader.new (chosen_at reader.old) }
{
    let mut list = Vec::new(alloc);
    list.push(column(reader, alloc)?)?;
    'items: while reader.takes(Symbol::Comma) {
        list.push(column(reader, alloc)?)?;
    }
    Ok(list)
}

// `*`, or columns.
#[tactic(auto, unfolding(crate::specs::Reading::columns_at))]
fn columns(reader: &mut Reader<'_>, alloc: Global) -> Result<Columns, ParseFault>
    ensures { Gives columns_of result reader.new (columns_at reader.old) }
{
    if reader.takes(Symbol::Star) {
        Ok(Columns::Star)
    } else {
        Ok(Columns::Chosen(chosen(reader, alloc)?))
    }
}

/// What a query selects, in its brackets.
#[tactic(auto, unfolding(crate::specs::Reading::in_round_at))]
pub(crate) fn in_round(reader: &mut Reader<'_>, alloc: Global) -> Result<Columns, ParseFault>
    ensures { Gives columns_of result reader.new (in_round_at reader.old) }
{
    reader.expect(&[Symbol::Open])?;
    let columns = columns(reader, alloc)?;
    reader.expect(&[Symbol::Close])?;
    Ok(columns)
}
