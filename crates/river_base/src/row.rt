// Rows of values.
ghost use Rattle.std.specs.Prelude.{◌≡◌, ◌≤◌, ◌<◌, ◌+◌, [], ◌∷◌, ◌++◌, All, length, Some};
ghost use Rattle.std.specs.Cmp.{partial_equiv_from_equiv, partial_order_from_agreeing_total};
ghost use Rattle.std.proofs.Common.{refl};
ghost use Rattle.river_base.specs.Number.{IsValue};
ghost use Rattle.river_base.specs.Row.{row_eq, row_cmp, row_equiv, row_total, row_ties};

use crate::Values;
use std::cmp::Ordering;
use std::marker::Model;

/// How many values a row has at most.
pub const MAX_ROW: usize = 16;

/// A row of 1 to 16 values, which contracts see as the list of its values.
#[derive(Clone, Copy)]
pub struct Row {
    values: Values,
}

impl Model for Row {
    ghost use Rattle.std.specs.Prelude.{ℤ, List, ◌≤◌, length};

    ghost Value = { List ℤ };

    ghost view = { λ r. r.values };

    ghost invariant = { λ r. 1 ≤ length r.values };

    ghost inverse = { λ xs. record { values = xs } };
}

impl Row {
    /// The row of these values, of which there are 1 to 16.
    pub fn from_slice(values: &[i64]) -> Row
        requires some { 1 ≤ length values.now }
        requires at_most { length values.now ≤ 16 }
        ensures { result ≡ values.now }
    {
        Row {
            values: Values::from_slice(values),
        }
    }

    /// The row of one value.
    pub fn one(value: i64) -> Row
        ensures { result ≡ value ∷ [] }
    {
        Row::from_slice(&[value])
    }

    /// The row with one more value at its end; the row has fewer than 16.
    pub fn pushed(&self, value: i64) -> Row
        requires { length self.now < 16 }
        ensures { result ≡ self.now ++ value ∷ [] }
    {
        Row {
            values: self.values.pushed(value),
        }
    }

    /// The values of this row, then those of the other; they are at most 16.
    pub fn joined(&self, other: &Row) -> Row
        requires { length self.now + length other.now ≤ 16 }
        ensures { result ≡ self.now ++ other.now }
    {
        let mut all = *self;
        for value in other.values() {
            all = all.pushed(*value);
        }
        all
    }

    /// The values, from left to right.
    pub fn values(&self) -> &[i64]
        ensures values { result.now ≡ self.now }
        ensures in_range { All IsValue self.now }
        ensures some { 1 ≤ length self.now }
        ensures at_most { length self.now ≤ 16 }
    {
        self.values.as_slice()
    }

    /// How many values there are, 1 to 16.
    pub fn width(&self) -> usize
        ensures width { result ≡ length self.now }
        ensures some { 1 ≤ length self.now }
        ensures at_most { length self.now ≤ 16 }
    {
        self.values.len()
    }
}

/// The order of rows: by their values from left to right; a proper prefix comes first.
pub fn compare(a: &Row, b: &Row) -> Ordering
    ensures { result ≡ row_cmp a.now b.now }
{
    a.values.cmp(&b.values)
}

impl PartialEq for Row {
    ghost eq = { row_eq };

    ghost laws = { partial_equiv_from_equiv row_equiv };

    fn eq(&self, other: &Row) -> bool {
        self.values == other.values
    }
}

impl Eq for Row {
    ghost laws = { row_equiv };
}

impl PartialOrd for Row {
    ghost partial_cmp = { λ a b. Some (row_cmp a b) };

    ghost laws = { partial_order_from_agreeing_total row_cmp row_total (λ a b. refl) row_ties };

    fn partial_cmp(&self, other: &Row) -> Option<Ordering> {
        Some(compare(self, other))
    }
}

impl Ord for Row {
    ghost cmp = { row_cmp };

    ghost total = { row_total };

    ghost matches_partial_cmp = { λ a b. refl };

    ghost matches_eq = { row_ties };

    fn cmp(&self, other: &Row) -> Ordering {
        compare(self, other)
    }
}
