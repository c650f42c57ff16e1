// The values of expressions.
ghost use Rattle.std.specs.Prelude.{◌≡◌, length, IfSome};
ghost use Rattle.work_code.specs.Term.{term};
ghost use Rattle.work_code.specs.Value.{val, applied, truth, IsWithin};
ghost use Rattle.river_base.specs.Number as number;

use crate::{BinOp, Expr};
use river_base::{add, mul, quot, rem, sub};

/// The value of an expression, for the values of a row and those of the slots. Both sides of an operation are
/// evaluated. Takes no memory.
pub fn eval(e: &Expr, input: &[i64], slots: &[i64]) -> i64
    requires { IsWithin (length input.now) (length slots.now) (term e.now) }
    ensures { result ≡ val (term e.now) input.now slots.now }
{
    match e {
        Expr::Const(value) => *value,
        Expr::Input(place) => input[*place as usize],
        Expr::Slot(slot) => slots[*slot as usize],
        Expr::Neg(inner) => negate(eval(inner, input, slots)),
        Expr::Not(inner) => truth_of(eval(inner, input, slots) == 0),
        Expr::Bin { op, left, right } => {
            let a = eval(left, input, slots);
            let b = match at_hand(right, input, slots) {
                Some(b) => b,
                None => eval(right, input, slots),
            };
            apply(*op, a, b)
        }
    }
}

// The value of an expression that is a value, a place or a slot.
fn at_hand(e: &Expr, input: &[i64], slots: &[i64]) -> Option<i64>
    requires { IsWithin (length input.now) (length slots.now) (term e.now) }
    ensures { IfSome result (λ value. value ≡ val (term e.now) input.now slots.now) }
{
    match e {
        Expr::Const(value) => Some(*value),
        Expr::Input(place) => Some(input[*place as usize]),
        Expr::Slot(slot) => Some(slots[*slot as usize]),
        _ => None,
    }
}

/// The value of an operation on two values; it takes no memory.
pub fn apply(op: BinOp, a: i64, b: i64) -> i64
    ensures { result ≡ applied op a b }
{
    match op {
        BinOp::Add => add(a, b),
        BinOp::Sub => sub(a, b),
        BinOp::Mul => mul(a, b),
        BinOp::Quot => quot(a, b),
        BinOp::Rem => rem(a, b),
        BinOp::Eq => truth_of(a == b),
        BinOp::Ne => truth_of(a != b),
        BinOp::Lt => truth_of(a < b),
        BinOp::Le => truth_of(a <= b),
        BinOp::Gt => truth_of(a > b),
        BinOp::Ge => truth_of(a >= b),
        BinOp::And => truth_of(a != 0 && b != 0),
        BinOp::Or => truth_of(a != 0 || b != 0),
    }
}

/// 1 where the test holds, and otherwise 0.
pub fn truth_of(test: bool) -> i64
    ensures { result ≡ truth test }
{
    if test { 1 } else { 0 }
}

/// The value with its sign turned, modulo 2^64.
pub fn negate(a: i64) -> i64
    ensures { result ≡ number.negate a }
{
    a.wrapping_neg()
}
