// The relation of a query at an instant: the product of its inputs, the condition, the columns.
ghost use Rattle.std.specs.Prelude.{◌≡◌, [], ◌∷◌, ◌++◌, map, All, IfOk, OnOk};
ghost use Rattle.std.specs.List.{AllByRecursion};
ghost use Rattle.cql_model.specs.Meaning.{with_each, where_true, eval, all_values, selected_row};
ghost use Rattle.cql_text.specs.Tree as tree;
ghost use Rattle.cql_text.specs.Tree.{columns_of, chosen_of, condition_of, query_of};
ghost use Rattle.slow_cql.specs.Kept.{Entry, is_in_order, input_scope};
ghost use Rattle.slow_cql.specs.Contents.{condition_holds, product_at, content_over, IsNarrowTuple};

use crate::kept::Input;
use crate::value::value;
use crate::window::reached;
use cql_text::{Column, Columns, Query, Scalar};
use river_base::{Duplicate, Listed, NoMemory, Numbers, Row, Rows};
use std::alloc::Global;

/// The relation of a query at an instant, as a bag.
pub(crate) fn content(
    alloc: Global,
    inputs: &[Input<'_>],
    query: &Query,
    at: i64,
) -> Result<Rows, NoMemory>
    requires in_order { AllByRecursion (λ i. is_in_order i.entries.now) inputs.now }
    requires narrow { All (IsNarrowTuple (input_scope inputs.now) (columns_of query.now.columns)) (product_at at inputs.now) }
    ensures { IfOk result (λ rows. rows ≡ content_over inputs.now (query_of query.now) at) }
{
    let tuples = product(alloc, inputs, at)?;
    selected(alloc, inputs, query, tuples.as_slice())
}

// The product of the inputs: all tuples with one row of each.
fn product(alloc: Global, inputs: &[Input<'_>], at: i64) -> Result<Listed<Rows>, NoMemory>
    requires { AllByRecursion (λ i. is_in_order i.entries.now) inputs.now }
    ensures { IfOk result (λ tuples. tuples ≡ product_at at inputs.now) }
{
    let mut tuples = Listed::blanks(alloc, 1)?;
    multiply(alloc, inputs, at, &mut tuples)?;
    Ok(tuples)
}

// The same, where there is the tuple without rows.
fn multiply(
    alloc: Global,
    inputs: &[Input<'_>],
    at: i64,
    tuples: &mut Listed<Rows>,
) -> Result<(), NoMemory>
    requires empty { tuples.old ≡ [] ∷ [] }
    requires in_order { AllByRecursion (λ i. is_in_order i.entries.now) inputs.now }
    ensures { OnOk result (tuples.new ≡ product_at at inputs.now) }
{
    for input in inputs {
        let entries = reached(input.window, input.entries, at);
        *tuples = with_each(alloc, tuples.as_slice(), entries)?;
    }
    Ok(())
}

// The tuples, each with each of the rows behind it.
fn with_each(
    alloc: Global,
    tuples: &[Rows],
    entries: &[(i64, Row)],
) -> Result<Listed<Rows>, NoMemory>
    ensures { IfOk result (λ all. all ≡ with_each tuples.now (map (λ (e : Entry). e.1) entries.now)) }
{
    let mut all = Listed::new(alloc);
    add_each(alloc, tuples, entries, &mut all)?;
    Ok(all)
}

// The same, where there is none yet.
fn add_each(
    alloc: Global,
    tuples: &[Rows],
    entries: &[(i64, Row)],
    all: &mut Listed<Rows>,
) -> Result<(), NoMemory>
    requires { all.old ≡ [] }
    ensures { OnOk result (all.new ≡ with_each tuples.now (map (λ (e : Entry). e.1) entries.now)) }
{
    for tuple in tuples {
        add_with(alloc, tuple, entries, all)?;
    }
    Ok(())
}

// Appends a tuple with each of the rows behind it.
fn add_with(
    alloc: Global,
    tuple: &Rows,
    entries: &[(i64, Row)],
    all: &mut Listed<Rows>,
) -> Result<(), NoMemory>
    ensures { OnOk result (all.new ≡ all.old ++ map (λ row. tuple.now ++ row ∷ []) (map (λ (e : Entry). e.1) entries.now)) }
{
    for entry in entries {
        all.push(longer(alloc, tuple, &entry.1)?)?;
    }
    Ok(())
}

// The tuple with one row more.
fn longer(alloc: Global, tuple: &Rows, row: &Row) -> Result<Rows, NoMemory>
    ensures { IfOk result (λ longer. longer ≡ tuple.now ++ row.now ∷ []) }
{
    let mut longer = tuple.copy(alloc)?;
    longer.push(*row)?;
    Ok(longer)
}

// The rows of the tuples for which the condition holds.
fn selected(
    alloc: Global,
    inputs: &[Input<'_>],
    query: &Query,
    tuples: &[Rows],
) -> Result<Rows, NoMemory>
    requires { All (IsNarrowTuple (input_scope inputs.now) (columns_of query.now.columns)) tuples.now }
    ensures { IfOk result (λ rows. rows ≡ map (selected_row (input_scope inputs.now) (columns_of query.now.columns)) (where_true (input_scope inputs.now)
        (condition_of query.now.condition) tuples.now)) }
{
    let mut rows = Rows::new(alloc);
    for tuple in tuples {
        if passes(inputs, &query.condition, tuple.as_slice()) {
            rows.push(row_of(alloc, inputs, &query.columns, tuple.as_slice())?)?;
        }
    }
    Ok(rows)
}

// Whether the condition holds for a tuple.
fn passes(inputs: &[Input<'_>], condition: &Option<Scalar>, tuple: &[Row]) -> bool
    ensures { result ≡ condition_holds (input_scope inputs.now) (condition_of condition.now) tuple.now }
{
    match condition {
        Some(scalar) => value(inputs, scalar, tuple) != 0,
        None => true,
    }
}

// The row of a tuple.
fn row_of(
    alloc: Global,
    inputs: &[Input<'_>],
    columns: &Columns,
    tuple: &[Row],
) -> Result<Row, NoMemory>
    requires { IsNarrowTuple (input_scope inputs.now) (columns_of columns.now) tuple.now }
    ensures { IfOk result (λ row. row ≡ selected_row (input_scope inputs.now) (columns_of columns.now) tuple.now) }
{
    let values = values_of(alloc, inputs, columns, tuple)?;
    Ok(Row::from_slice(values.as_slice()))
}

// Its values.
fn values_of(
    alloc: Global,
    inputs: &[Input<'_>],
    columns: &Columns,
    tuple: &[Row],
) -> Result<Numbers, NoMemory>
    ensures { IfOk result (λ values. values ≡ selected_row (input_scope inputs.now) (columns_of columns.now) tuple.now) }
{
    match columns {
        Columns::Star => joined(alloc, tuple),
        Columns::Chosen(list) => chosen(alloc, inputs, list.as_slice(), tuple),
    }
}

// All values of the rows.
fn joined(alloc: Global, tuple: &[Row]) -> Result<Numbers, NoMemory>
    ensures { IfOk result (λ values. values ≡ all_values tuple.now) }
{
    let mut values = Numbers::new(alloc);
    for row in tuple {
        add_values(row.values(), &mut values)?;
    }
    Ok(values)
}

// Appends values.
fn add_values(more: &[i64], values: &mut Numbers) -> Result<(), NoMemory>
    ensures { OnOk result (values.new ≡ values.old ++ more.now) }
{
    for value in more {
        values.push(*value)?;
    }
    Ok(())
}

// The values of the columns.
fn chosen(
    alloc: Global,
    inputs: &[Input<'_>],
    columns: &[Column],
    tuple: &[Row],
) -> Result<Numbers, NoMemory>
    ensures { IfOk result (λ values. values ≡ map (λ (c : tree.Column). eval (input_scope inputs.now) c.value tuple.now) (chosen_of columns.now)) }
{
    let mut values = Numbers::new(alloc);
    for column in columns {
        values.push(value(inputs, &column.value, tuple))?;
    }
    Ok(values)
}
