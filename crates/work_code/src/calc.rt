// Expressions in the form in which they are run.
ghost use Rattle.std.specs.Prelude.{◌≡◌, length, IfOk};
ghost use Rattle.work_code.specs.Term.{term};
ghost use Rattle.work_code.specs.Value.{val, IsWithin};
ghost use Rattle.work_code.specs.Calcs.{Applied, calc_term, leaf_term, further, further_of, calc_after, IsRightWithin};

use crate::{BinOp, Expr, apply, negate, truth_of};
use river_base::NoMemory;
use std::alloc::Global;

/// What needs no operation: a value as written, that at a place of the input, or that of a slot.
#[derive(Clone, Copy)]
pub(crate) enum Leaf {
    Const(i64),
    Input(u32),
    Slot(u32),
}

/// What is done with the value so far, which is the left side of an operation.
#[derive(Drop)]
#[cycle(calc)]
pub(crate) enum CalcStep {
    Neg,
    Not,
    Const(BinOp, i64),
    Input(BinOp, u32),
    Slot(BinOp, u32),
    /// The right side is no leaf.
    Deep(BinOp, Calc),
}

/// An expression as it is run: its leftmost leaf, and then step by step what is done with the value so far. So the
/// left sides of a tree, one within another, are one list, and memory is taken when it is made alone.
#[derive(Drop)]
#[cycle(calc)]
pub(crate) struct Calc {
    first: Leaf,
    steps: Vec<CalcStep>,
}

/// The form in which an expression is run.
pub(crate) fn calc_of(alloc: Global, e: &Expr) -> Result<Calc, NoMemory>
    ensures { IfOk result (λ c. calc_term c ≡ term e.now) }
{
    match e {
        Expr::Const(value) => Ok(no_steps(alloc, Leaf::Const(*value))),
        Expr::Input(place) => Ok(no_steps(alloc, Leaf::Input(*place))),
        Expr::Slot(slot) => Ok(no_steps(alloc, Leaf::Slot(*slot))),
        Expr::Neg(inner) => with_step(calc_of(alloc, inner)?, CalcStep::Neg),
        Expr::Not(inner) => with_step(calc_of(alloc, inner)?, CalcStep::Not),
        Expr::Bin { op, left, right } => {
            let step = right_side(*op, calc_of(alloc, right)?);
            with_step(calc_of(alloc, left)?, step)
        }
    }
}

// A leaf alone.
fn no_steps(alloc: Global, first: Leaf) -> Calc
    ensures { calc_term result ≡ leaf_term first }
{
    Calc {
        first,
        steps: Vec::new(alloc),
    }
}

// The expression, and then this step.
fn with_step(c: Calc, step: CalcStep) -> Result<Calc, NoMemory>
    ensures { IfOk result (λ more. calc_term more ≡ further (further_of step) (calc_term c)) }
{
    let mut c = c;
    c.steps.push(step)?;
    Ok(c)
}

// The step of an operation with this right side.
fn right_side(op: BinOp, right: Calc) -> CalcStep
    ensures { further_of result ≡ Applied op (calc_term right) }
{
    if right.steps.len() > 0 {
        return CalcStep::Deep(op, right);
    }
    match right.first {
        Leaf::Const(value) => CalcStep::Const(op, value),
        Leaf::Input(place) => CalcStep::Input(op, place),
        Leaf::Slot(slot) => CalcStep::Slot(op, slot),
    }
}

/// The value of an expression, for the values of a row and those of the slots. Both sides of an operation are
/// evaluated. Takes no memory.
#[cycle(value)]
pub(crate) fn value_of(c: &Calc, input: &[i64], slots: &[i64]) -> i64
    requires { IsWithin (length input.now) (length slots.now) (calc_term c.now) }
    ensures { result ≡ val (calc_term c.now) input.now slots.now }
{
    let mut value = leaf_value(c.first, input, slots);
    for step in c.steps.as_slice() {
        value = after_step(step, value, input, slots);
    }
    value
}

// The value after a step, where this was the value before it.
#[cycle(value)]
fn after_step(step: &CalcStep, value: i64, input: &[i64], slots: &[i64]) -> i64
    requires { IsRightWithin (length input.now) (length slots.now) (further_of step.now) }
    ensures { result ≡ calc_after (further_of step.now) value input.now slots.now }
{
    match step {
        CalcStep::Neg => negate(value),
        CalcStep::Not => truth_of(value == 0),
        CalcStep::Const(op, right) => apply(*op, value, *right),
        CalcStep::Input(op, place) => apply(*op, value, input[*place as usize]),
        CalcStep::Slot(op, slot) => apply(*op, value, slots[*slot as usize]),
        CalcStep::Deep(op, right) => apply(*op, value, value_of(right, input, slots)),
    }
}

// The value of a leaf.
fn leaf_value(leaf: Leaf, input: &[i64], slots: &[i64]) -> i64
    requires { IsWithin (length input.now) (length slots.now) (leaf_term leaf) }
    ensures { result ≡ val (leaf_term leaf) input.now slots.now }
{
    match leaf {
        Leaf::Const(value) => value,
        Leaf::Input(place) => input[place as usize],
        Leaf::Slot(slot) => slots[slot as usize],
    }
}
