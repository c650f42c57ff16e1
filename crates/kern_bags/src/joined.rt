// Rows joined in those pairs for which a condition is not 0.
ghost use Rattle.std.specs.Prelude.{◌≡◌, ◌<◌, [], ◌∷◌, ◌++◌, length, map, All, IfOk, OnOk};
ghost use Rattle.work_code.specs.Term.{term};
ghost use Rattle.work_code.specs.Value.{IsWithin};
ghost use Rattle.river_base.specs.Changes.{all_pairs};
ghost use Rattle.kern_changes.specs.Counted.{AreSame};
ghost use Rattle.kern_changes.specs.Keyed.{rows_with};
ghost use Rattle.kern_bags.specs.Contents.{selected};
ghost use Rattle.kern_bags.specs.Joined.{CanPair, CanPairOf, CanPairRight, CanPairLeft, Finds};

use crate::places::equal_places;
use crate::rowwise::passes;
use kern_changes::KeyedContent;
use river_base::{Change, NoMemory, Row, Rows};
use std::alloc::Global;
use work_code::Formula;

// One row joined with each of the others, where the pair passes.
fn join_row(cond: &Formula, left: &Row, rights: &[Row], all: &mut Rows) -> Result<(), NoMemory>
    requires { CanPair (term cond.now) (left.now ∷ []) rights.now }
    ensures { OnOk result (all.new ≡ all.old ++ selected (term cond.now) (map (λ y. left.now ++ y) rights.now)) }
{
    for right in rights {
        push_passing(cond, left.joined(right), all)?;
    }
    Ok(())
}

// Each of the others joined with a row, where the pair passes.
fn join_to_row(cond: &Formula, lefts: &[Row], right: &Row, all: &mut Rows) -> Result<(), NoMemory>
    requires { CanPair (term cond.now) lefts.now (right.now ∷ []) }
    ensures { OnOk result (all.new ≡ all.old ++ selected (term cond.now) (map (λ x. x ++ right.now) lefts.now)) }
{
    for left in lefts {
        push_passing(cond, left.joined(right), all)?;
    }
    Ok(())
}

fn push_passing(cond: &Formula, pair: Row, all: &mut Rows) -> Result<(), NoMemory>
    requires { IsWithin (length pair) 0 (term cond.now) }
    ensures { OnOk result (all.new ≡ all.old ++ selected (term cond.now) (pair ∷ [])) }
{
    if passes(cond, &pair) {
        all.push(pair)?;
    }
    Ok(())
}

// The rows at the right that a row of the left can pass with: where the condition holds two places
// equal, those that have its value there.
fn find_right(
    alloc: Global,
    cond: &Formula,
    left: &Row,
    rights: &mut KeyedContent,
) -> Result<Rows, NoMemory>
    requires { CanPair (term cond.now) (left.now ∷ []) rights.old }
    ensures same { OnOk result (AreSame rights.old rights.new) }
    ensures found { IfOk result (λ found. Finds (term cond.now) (λ y. left.now ++ y) found rights.old) }
    ensures wide { IfOk result (λ found. CanPair (term cond.now) (left.now ∷ []) found) }
{
    match equal_places(cond.expr(), left.width()) {
        Some((i, j)) => find_by(alloc, j - left.width(), left.values()[i], rights),
        None => rights.rows(alloc),
    }
}

// The rows at the left, which have so many values, that a row of the right can pass with.
fn find_left(
    alloc: Global,
    cond: &Formula,
    width: usize,
    lefts: &mut KeyedContent,
    right: &Row,
) -> Result<Rows, NoMemory>
    requires { CanPairOf width (term cond.now) lefts.old (right.now ∷ []) }
    ensures same { OnOk result (AreSame lefts.old lefts.new) }
    ensures found { IfOk result (λ found. Finds (term cond.now) (λ x. x ++ right.now) found lefts.old) }
    ensures wide { IfOk result (λ found. CanPair (term cond.now) found (right.now ∷ [])) }
{
    match equal_places(cond.expr(), width) {
        Some((i, j)) => find_by(alloc, i, right.values()[j - width], lefts),
        None => lefts.rows(alloc),
    }
}

// The rows that have this value in this column.
fn find_by(
    alloc: Global,
    column: usize,
    value: i64,
    rows: &mut KeyedContent,
) -> Result<Rows, NoMemory>
    requires { All (λ row. column < length row) rows.old }
    ensures same { OnOk result (AreSame rows.old rows.new) }
    ensures found { IfOk result (λ found. AreSame found (rows_with column value rows.old)) }
{
    let mut found = Rows::new(alloc);
    rows.find(alloc, column, value, &mut found)?;
    Ok(found)
}

// The pairs that pass of rows of the left side with all that is at the right.
fn pairs_from_left(
    alloc: Global,
    cond: &Formula,
    lefts: &[Row],
    rights: &mut KeyedContent,
    all: &mut Rows,
) -> Result<(), NoMemory>
    requires { CanPair (term cond.now) lefts.now rights.old }
    ensures same { OnOk result (AreSame rights.old rights.new) }
    ensures pairs { OnOk result (AreSame all.new (all.old ++ selected (term cond.now) (all_pairs lefts.now rights.old))) }
{
    for left in lefts {
        let found = find_right(alloc, cond, left, rights)?;
        join_row(cond, left, found.as_slice(), all)?;
    }
    Ok(())
}

// The pairs that pass of all that is at the left, whose rows have so many values, with rows of the
// right side.
fn pairs_from_right(
    alloc: Global,
    cond: &Formula,
    width: usize,
    lefts: &mut KeyedContent,
    rights: &[Row],
    all: &mut Rows,
) -> Result<(), NoMemory>
    requires { CanPairOf width (term cond.now) lefts.old rights.now }
    ensures same { OnOk result (AreSame lefts.old lefts.new) }
    ensures pairs { OnOk result (AreSame all.new (all.old ++ selected (term cond.now) (all_pairs lefts.old rights.now))) }
{
    for right in rights {
        let found = find_left(alloc, cond, width, lefts, right)?;
        join_to_row(cond, found.as_slice(), right, all)?;
    }
    Ok(())
}

/// What comes and goes at the left meets all that is at the right.
pub(crate) fn meet_right_where(
    alloc: Global,
    cond: &Formula,
    change: &Change,
    rights: &mut KeyedContent,
    plus: &mut Rows,
    minus: &mut Rows,
) -> Result<(), NoMemory>
    requires { CanPairRight (term cond.now) change.now rights.old }
    ensures same { OnOk result (AreSame rights.old rights.new) }
    ensures plus { OnOk result (AreSame plus.new (plus.old ++ selected (term cond.now) (all_pairs change.now.plus rights.old))) }
    ensures minus { OnOk result (AreSame minus.new (minus.old ++ selected (term cond.now) (all_pairs change.now.minus rights.old))) }
{
    pairs_from_left(alloc, cond, change.plus.as_slice(), rights, plus)?;
    pairs_from_left(alloc, cond, change.minus.as_slice(), rights, minus)
}

/// What comes and goes at the right meets all that is at the left.
pub(crate) fn meet_left_where(
    alloc: Global,
    cond: &Formula,
    change: &Change,
    lefts: &mut KeyedContent,
    plus: &mut Rows,
    minus: &mut Rows,
) -> Result<(), NoMemory>
    requires { CanPairLeft (term cond.now) lefts.old change.now }
    ensures same { OnOk result (AreSame lefts.old lefts.new) }
    ensures plus { OnOk result (AreSame plus.new (plus.old ++ selected (term cond.now) (all_pairs lefts.old change.now.plus))) }
    ensures minus { OnOk result (AreSame minus.new (minus.old ++ selected (term cond.now) (all_pairs lefts.old change.now.minus))) }
{
    match lefts.width() {
        Some(width) => {
            pairs_from_right(alloc, cond, width, lefts, change.plus.as_slice(), plus)?;
            pairs_from_right(alloc, cond, width, lefts, change.minus.as_slice(), minus)
        }
        None => Ok(()),
    }
}
