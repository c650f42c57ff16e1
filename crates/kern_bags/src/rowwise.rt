// What selections and projections do with an item.
ghost use Rattle.std.specs.Prelude.{◌≡◌, [], ◌≤◌, length, map, IfOk, OnOk, OnErr};
ghost use Rattle.std.specs.List.{AllByRecursion};
ghost use Rattle.work_code.specs.Term.{term, terms};
ghost use Rattle.work_code.specs.Value.{val, is_true, IsWithin};
ghost use Rattle.kern_bags.specs.Contents.{selected};
ghost use Rattle.kern_bags.specs.Following.{Selects, SelectsFlat, Projects, ProjectsFlat};
ghost use Rattle.kern_bags.specs.Needs.{CanRead, CanProject};
ghost use Rattle.kern_bags.specs.Takes.{CanReadBoth, CanReadFlat, CanProjectBoth, CanProjectFlat};
ghost use Rattle.river_base.specs.Changes.{IsChanged};

use crate::given::{change_of, give_batch, give_change};
use kern_changes::settle;
use river_base::{Change, Flat, Items, MAX_ROW, NoMemory, Row, Rows};
use std::alloc::Global;
use work_code::{Formula, Formulas};

/// An item comes to a selection. Of a stream it gives the rows for which the condition is not 0, in
/// their order; of a relation the change of these, which is both parts without the others. Either is
/// at the item's instant. A row gives nothing. Touches each row of the item once. Where there is no
/// memory, nothing was given.
pub fn select(cond: &Formula, item: Flat, out: &mut Items) -> Result<(), NoMemory>
    requires { CanReadFlat (term cond.now) item }
    ensures ok { OnOk result (SelectsFlat (term cond.now) item out.old out.new) }
    ensures err { OnErr result (out.new ≡ out.old) }
{
    match item {
        Flat::One(_) => Ok(()),
        Flat::Batch(batch) => {
            let mut kept = batch;
            keep_rows(cond, &mut kept.rows);
            give_batch(kept, out)
        }
        Flat::Change(change) => give_change(select_change(cond, change), out),
    }
}

// The change of a selection: both parts without the rows for which the condition is 0.
fn select_change(cond: &Formula, change: Change) -> Change
    requires { CanReadBoth (term cond.now) change }
    ensures { Selects (term cond.now) change result }
{
    let mut plus = change.plus;
    let mut minus = change.minus;
    keep_rows(cond, &mut plus);
    keep_rows(cond, &mut minus);
    Change {
        at: change.at,
        plus,
        minus,
    }
}

// Keeps the rows for which the condition is not 0, in their order, in place.
fn keep_rows(cond: &Formula, rows: &mut Rows)
    requires { CanRead (term cond.now) rows.old }
    ensures { rows.new ≡ selected (term cond.now) rows.old }
{
    let mut kept = 0;
    for place in 0..rows.len() {
        let row = *rows.at(place);
        if passes(cond, &row) {
            *rows.at_mut(kept) = row;
            kept += 1;
        }
    }
    rows.truncate(kept);
}

// Whether the condition is not 0.
pub(crate) fn passes(cond: &Formula, row: &Row) -> bool
    requires { IsWithin (length row.now) 0 (term cond.now) }
    ensures { result ≡ is_true (val (term cond.now) row.now []) }
{
    cond.value(row.values()) != 0
}

/// A change comes to a projection, which gives the change of what it projects: for the rows of both
/// parts their values of the 1 to 16 expressions, without those that then come and go, at the same
/// instant. Costs n log n of the change's rows. Where there is no memory, nothing was given.
pub fn project(alloc: Global, list: &Formulas, item: Flat, out: &mut Items) -> Result<(), NoMemory>
    requires change { IsChanged item }
    requires fits { CanProjectFlat (terms list.now) item }
    ensures ok { OnOk result (ProjectsFlat (terms list.now) item out.old out.new) }
    ensures err { OnErr result (out.new ≡ out.old) }
{
    let change = project_change(alloc, list, change_of(item))?;
    give_change(change, out)
}

// The change of a projection: for the rows of both parts their values of the expressions, without
// those that then come and go.
fn project_change(alloc: Global, list: &Formulas, change: Change) -> Result<Change, NoMemory>
    requires { CanProjectBoth (terms list.now) change }
    ensures { IfOk result (λ d. Projects (terms list.now) change d) }
{
    let mut plus = change.plus;
    let mut minus = change.minus;
    project_rows(list, &mut plus);
    project_rows(list, &mut minus);
    settle(alloc, change.at, plus, minus)
}

// In the place of each row come its values of the expressions, of which there are 1 to 16.
fn project_rows(list: &Formulas, rows: &mut Rows)
    requires { CanProject (terms list.now) rows.old }
    ensures { rows.new ≡ map (λ row. map (λ t. val t row []) (terms list.now)) rows.old }
{
    for place in 0..rows.len() {
        let row = project_row(list, rows.at(place));
        *rows.at_mut(place) = row;
    }
}

// A row's values of the expressions.
fn project_row(list: &Formulas, row: &Row) -> Row
    requires some { 1 ≤ length (terms list.now) }
    requires at_most { length (terms list.now) ≤ 16 }
    requires within { AllByRecursion (IsWithin (length row.now) 0) (terms list.now) }
    ensures { result ≡ map (λ t. val t row.now []) (terms list.now) }
{
    let mut all = [0; MAX_ROW];
    list.put_values(row.values(), &mut all);
    Row::from_slice(&all[..list.len()])
}
