// The fields that values name.
ghost use Rattle.std.specs.Prelude.{◌≡◌, min, Some, None};
ghost use Rattle.river_plan.specs.Names.{count};
ghost use Rattle.cql_model.specs.Judged.{field_places, item_places, field_fault, scalar_fault, chosen_fault, columns_fault, condition_fault, then_fault};
ghost use Rattle.cql_text.specs.Tree.{scalar, chosen_of, columns_of, condition_of};
ghost use Rattle.cql_build.specs.Views.{scope};

use crate::Item;
use cql_model::Fault;
use cql_text::{Column, Columns, Scalar};
use river_base::Name;

/// How often a name stands in a list.
pub(crate) fn count(names: &[Name], name: Name) -> usize
    ensures { result ≡ count name names.now }
{
    let mut n = 0;
    for other in names {
        if *other == name {
            n += 1;
        }
    }
    n
}

// In how many places of the items a field stands; 2 stands for more.
fn places(items: &[Item<'_>], field: Name) -> usize
    ensures { result ≡ min (field_places field (scope items.now)) 2 }
{
    let mut n: usize = 0;
    for item in items {
        n = n.saturating_add(count(item.fields, field)).min(2);
    }
    n
}

// In how many places a field stands in the items of this name; 2 stands for more.
fn item_places(items: &[Item<'_>], name: Name, field: Name) -> usize
    ensures { result ≡ min (item_places name field (scope items.now)) 2 }
{
    let mut n: usize = 0;
    for item in items {
        if item.name == name {
            n = n.saturating_add(count(item.fields, field)).min(2);
        }
    }
    n
}

// What is told of a field that stands in so many places.
fn field_fault(places: usize) -> Option<Fault>
    ensures { result ≡ field_fault places }
{
    match places {
        0 => Some(Fault::UnknownField),
        1 => None,
        _ => Some(Fault::AmbiguousField),
    }
}

/// The first fault of a value among these items.
pub(crate) fn value_fault(items: &[Item<'_>], value: &Scalar) -> Option<Fault>
    ensures { result ≡ scalar_fault (scope items.now) (scalar value.now) }
{
    match value {
        Scalar::Number(_) => None,
        Scalar::Field(field) => field_fault(places(items, *field)),
        Scalar::ItemField(item, field) => field_fault(item_places(items, *item, *field)),
        Scalar::Neg(inner) | Scalar::Not(inner) => value_fault(items, inner),
        Scalar::Bin { left, right, .. } => match value_fault(items, left) {
            Some(fault) => Some(fault),
            None => value_fault(items, right),
        },
    }
}

/// The first fault of what a query selects, the columns first.
pub(crate) fn selected_fault(
    items: &[Item<'_>],
    columns: &Columns,
    condition: &Option<Scalar>,
) -> Option<Fault>
    ensures { result ≡ then_fault (columns_fault (scope items.now) (columns_of columns.now)) (condition_fault (scope items.now) (condition_of condition.now)) }
{
    match columns_fault(items, columns) {
        Some(fault) => Some(fault),
        None => condition_fault(items, condition),
    }
}

// The first fault of the condition.
fn condition_fault(items: &[Item<'_>], condition: &Option<Scalar>) -> Option<Fault>
    ensures { result ≡ condition_fault (scope items.now) (condition_of condition.now) }
{
    match condition {
        Some(value) => value_fault(items, value),
        None => None,
    }
}

// The first fault of the columns.
fn columns_fault(items: &[Item<'_>], columns: &Columns) -> Option<Fault>
    ensures { result ≡ columns_fault (scope items.now) (columns_of columns.now) }
{
    match columns {
        Columns::Star => None,
        Columns::Chosen(list) => chosen_fault(items, list.as_slice()),
    }
}

// The first fault of columns that are chosen.
fn chosen_fault(items: &[Item<'_>], columns: &[Column]) -> Option<Fault>
    ensures { result ≡ chosen_fault (scope items.now) 0 (chosen_of columns.now) }
{
    for i in 0..columns.len() {
        if i >= 16 {
            return Some(Fault::Limit);
        }
        if let Some(fault) = value_fault(items, &columns[i].value) {
            return Some(fault);
        }
    }
    None
}
