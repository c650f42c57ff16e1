// Lists of at most 16 values.
ghost use Rattle.std.specs.Prelude.{◌≡◌, ◌≤◌, ◌<◌, [], ◌∷◌, ◌++◌, All, length, Some};
ghost use Rattle.std.specs.Cmp.{partial_equiv_from_equiv, partial_order_from_agreeing_total};
ghost use Rattle.std.proofs.Common.{refl};
ghost use Rattle.river_base.specs.Number.{IsValue};
ghost use Rattle.river_base.specs.Row.{row_eq, row_cmp, row_equiv, row_total, row_ties};

use std::cmp::Ordering;
use std::marker::Model;

/// At most 16 values, which contracts see as the list of them.
#[derive(Clone, Copy)]
pub struct Values {
    width: usize,
    values: [i64; 16],
}

impl Model for Values {
    ghost use Rattle.std.specs.Prelude.{ℤ, pos, List, length, take};
    ghost use Rattle.river_base.specs.Row.{AreShortValues};
    ghost use Rattle.river_base.specs.Short.{padded, rebuilt};

    ghost Value = { List ℤ };

    ghost view = { λ r. take r.width r.values };

    ghost invariant = { λ r. AreShortValues r.width r.values };

    ghost inverse = { λ xs. record { width = length xs; values = padded 16 (pos 0) xs } };

    ghost inverse_ok = { λ a h. rebuilt 16 (pos 0) (λ w v. record { width = w; values = v }) a.width a.values h.short };
}

impl Values {
    /// These values, of which there are at most 16.
    pub fn from_slice(values: &[i64]) -> Values
        requires at_most { length values.now ≤ 16 }
        ensures { result ≡ values.now }
    {
        let mut all = [0; 16];
        for i in 0..values.len() {
            all[i] = values[i];
        }
        Values {
            width: values.len(),
            values: all,
        }
    }

    /// One more value at the end; there are fewer than 16.
    pub fn pushed(&self, value: i64) -> Values
        requires { length self.now < 16 }
        ensures { result ≡ self.now ++ value ∷ [] }
    {
        let mut values = self.values;
        values[self.width] = value;
        Values {
            width: self.width + 1,
            values,
        }
    }

    /// How many there are.
    pub fn len(&self) -> usize
        ensures len { result ≡ length self.now }
        ensures at_most { length self.now ≤ 16 }
    {
        self.width
    }

    /// The values, from left to right.
    pub fn as_slice(&self) -> &[i64]
        ensures values { result.now ≡ self.now }
        ensures in_range { All IsValue self.now }
        ensures at_most { length self.now ≤ 16 }
    {
        &self.values[..self.width]
    }
}

impl PartialEq for Values {
    ghost eq = { row_eq };

    ghost laws = { partial_equiv_from_equiv row_equiv };

    fn eq(&self, other: &Values) -> bool {
        self.as_slice() == other.as_slice()
    }
}

impl Eq for Values {
    ghost laws = { row_equiv };
}

impl PartialOrd for Values {
    ghost partial_cmp = { λ a b. Some (row_cmp a b) };

    ghost laws = { partial_order_from_agreeing_total row_cmp row_total (λ a b. refl) row_ties };

    fn partial_cmp(&self, other: &Values) -> Option<Ordering> {
        Some(self.cmp(other))
    }
}

impl Ord for Values {
    ghost cmp = { row_cmp };

    ghost total = { row_total };

    ghost matches_partial_cmp = { λ a b. refl };

    ghost matches_eq = { row_ties };

    fn cmp(&self, other: &Values) -> Ordering {
        self.as_slice().cmp(other.as_slice())
    }
}
