// What runs of bodies push.
ghost use Rattle.std.specs.Prelude.{◌≡◌, ℤ, List, ◌<◌, ◌≤◌, ◌↔◌, [], ◌∷◌, ◌++◌, length, map, slice_get, Some, IsTrue, OnOk, OnErr};
ghost use Rattle.std.specs.List.{AllByRecursion};
ghost use Rattle.river_base.specs.Grew.{GrewByPrefix};
ghost use Rattle.work_code.specs.Calcs.{calc_term};
ghost use Rattle.work_code.specs.Value.{val, IsWithin};

use crate::calc::{Calc, value_of};
use river_base::NoMemory;
use std::alloc::Global;
use std::marker::Model;

// A row among the values: the port that it goes to, its width, and the place of its first value.
#[derive(Clone, Copy)]
struct Mark {
    port: u32,
    width: u32,
    start: usize,
}

/// What runs of bodies give: for each push its port and its row, of 1 to 16 values. The values of
/// all rows lie one after another. Contracts see the list of the ports and rows.
#[derive(Drop)]
pub struct Emitted {
    marks: Vec<Mark>,
    // behind those of the last row may be some that a push without memory left
    values: Vec<i64>,
}

impl Model for Emitted {
    ghost use Rattle.std.specs.Prelude.{ℕ, ℤ, List, map, length, All};
    ghost use Rattle.work_code.specs.Emitted.{row_at, IsMark};

    ghost Value = { List (ℕ × List ℤ) };

    ghost view = { λ e. map (row_at e.values.items) e.marks.items };

    ghost invariant = { λ e. All (IsMark (length e.values.items)) e.marks.items };
}

impl Emitted {
    /// No row.
    pub fn new(alloc: Global) -> Emitted
        ensures { result ≡ [] }
    {
        Emitted {
            marks: Vec::new(alloc),
            values: Vec::new(alloc),
        }
    }

    /// How many rows there are.
    pub fn len(&self) -> usize
        ensures { result ≡ length self.now }
    {
        self.marks.len()
    }

    /// Whether there is no row.
    pub fn is_empty(&self) -> bool
        ensures { IsTrue result ↔ (self.now ≡ []) }
    {
        self.marks.is_empty()
    }

    /// The port and the values of the row at a place, from 0.
    pub fn at(&self, i: usize) -> (u32, &[i64])
        requires { i < length self.now }
        ensures row { slice_get self.now i ≡ Some (result.0, result.1.now) }
        ensures some { 1 ≤ length result.1.now }
        ensures at_most { length result.1.now ≤ 16 }
    {
        let mark = self.marks[i];
        let end = mark.start + mark.width as usize;
        (mark.port, &self.values[mark.start..end])
    }

    /// Appends the row of the values of expressions, of which there are 1 to 16; changes nothing
    /// where there is no memory.
    pub(crate) fn push_row(
        &mut self,
        port: u32,
        row: &[Calc],
        input: &[i64],
        slots: &[i64],
    ) -> Result<(), NoMemory>
        requires some { 1 ≤ length (map calc_term row.now) }
        requires at_most { length (map calc_term row.now) ≤ 16 }
        requires within { AllByRecursion (IsWithin (length input.now) (length slots.now)) (map calc_term row.now) }
        ensures ok { OnOk result (self.new ≡ self.old ++ (port, map (λ t. val t input.now slots.now) (map calc_term row.now)) ∷ []) }
        ensures err { OnErr result (self.new ≡ self.old) }
    {
        let start = self.values.len();
        let width = row.len() as u32;
        add_values(row, input, slots, &mut self.values)?;
        self.marks.push(Mark { port, width, start })?;
        Ok(())
    }

    /// No row is left; the memory is kept.
    pub fn clear(&mut self)
        ensures { self.new ≡ [] }
    {
        self.marks.clear();
        self.values.clear();
    }
}

// Appends the values of expressions.
fn add_values(
    row: &[Calc],
    input: &[i64],
    slots: &[i64],
    values: &mut Vec<i64>,
) -> Result<(), NoMemory>
    requires { AllByRecursion (IsWithin (length input.now) (length slots.now)) (map calc_term row.now) }
    ensures ok { OnOk result (values.new.items ≡ values.old.items ++ map (λ t. val t input.now slots.now) (map calc_term row.now)) }
    ensures err { OnErr result (GrewByPrefix values.old.items (map (λ t. val t input.now slots.now) (map calc_term row.now)) values.new.items) }
{
    for e in row {
        values.push(value_of(e, input, slots))?;
    }
    Ok(())
}
