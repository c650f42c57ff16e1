// The names of columns.
ghost use Rattle.std.specs.Prelude.{◌≡◌, ◌++◌, codes, IfOk, OnOk};
ghost use Rattle.std.specs.List.{flat_map};
ghost use Rattle.std.specs.Fmt.{decimal};
ghost use Rattle.cql_model.specs.Scopes.{column_name, column_names, names_from, plain_name};
ghost use Rattle.cql_text.specs.Tree.{scalar, column_of, chosen_of, columns_of};
ghost use Rattle.cql_build.specs.Views.{scope};

use crate::Item;
use crate::names::put_number;
use cql_text::{Column, Columns, Scalar};
use river_base::{Bytes, Name, NoMemory};
use river_plan::Names;
use std::alloc::Global;

/// The names of the columns that are selected from these items.
pub(crate) fn column_names(
    alloc: Global,
    items: &[Item<'_>],
    columns: &Columns,
) -> Result<Names, NoMemory>
    ensures { IfOk result (λ names. names ≡ column_names (scope items.now) (columns_of columns.now)) }
{
    match columns {
        Columns::Star => all_fields(alloc, items),
        Columns::Chosen(list) => chosen_names(alloc, list.as_slice()),
    }
}

// The fields of all items.
fn all_fields(alloc: Global, items: &[Item<'_>]) -> Result<Names, NoMemory>
    ensures { IfOk result (λ names. names ≡ flat_map (λ i. i.fields) (scope items.now)) }
{
    let mut names = Names::new(alloc);
    for item in items {
        append(&mut names, item.fields)?;
    }
    Ok(names)
}

/// The same names.
pub(crate) fn copied(alloc: Global, names: &[Name]) -> Result<Names, NoMemory>
    ensures { IfOk result (λ copy. copy ≡ names.now) }
{
    let mut copy = Names::new(alloc);
    append(&mut copy, names)?;
    Ok(copy)
}

/// Names behind those that are there.
pub(crate) fn append(to: &mut Names, names: &[Name]) -> Result<(), NoMemory>
    ensures { OnOk result (to.new ≡ to.old ++ names.now) }
{
    for name in names {
        to.push(*name)?;
    }
    Ok(())
}

// The names of columns that are chosen.
fn chosen_names(alloc: Global, columns: &[Column]) -> Result<Names, NoMemory>
    ensures { IfOk result (λ names. names ≡ names_from 1 (chosen_of columns.now)) }
{
    let mut names = Names::new(alloc);
    for i in 0..columns.len() {
        names.push(column_name(alloc, i + 1, &columns[i])?)?;
    }
    Ok(names)
}

// The name of the column at a place, from 1.
fn column_name(alloc: Global, place: usize, column: &Column) -> Result<Name, NoMemory>
    ensures { IfOk result (λ name. name ≡ column_name place (column_of column.now)) }
{
    match column.alias {
        Some(alias) => Ok(alias),
        None => value_name(alloc, place, &column.value),
    }
}

// The name of a column without an alias: its field's where it is one, and otherwise that of its place.
fn value_name(alloc: Global, place: usize, value: &Scalar) -> Result<Name, NoMemory>
    ensures { IfOk result (λ name. name ≡ plain_name (scalar value.now) (codes "c" ++ decimal place)) }
{
    match value {
        Scalar::Field(field) | Scalar::ItemField(_, field) => Ok(*field),
        Scalar::Number(_) | Scalar::Neg(_) | Scalar::Not(_) | Scalar::Bin { .. } => {
            place_name(alloc, place)
        }
    }
}

// The name of a place: `c1` and so on.
fn place_name(alloc: Global, place: usize) -> Result<Name, NoMemory>
    ensures { IfOk result (λ name. name ≡ codes "c" ++ decimal place) }
{
    let text = place_text(alloc, place)?;
    Ok(Name::of(text.as_slice()))
}

// Its bytes.
fn place_text(alloc: Global, place: usize) -> Result<Bytes, NoMemory>
    ensures { IfOk result (λ text. text ≡ codes "c" ++ decimal place) }
{
    let mut bytes = Bytes::new(alloc);
    put_number(b"c", place, &mut bytes)?;
    Ok(bytes)
}
