// Places of a joined row that a condition holds equal.
ghost use Rattle.std.specs.Prelude.{◌≡◌, ℕ, IfNone, IfSome};
ghost use Rattle.work_code.specs.Term.{term, Input};
ghost use Rattle.kern_bags.specs.Joined.{HoldsEqual, IsAcross, NoneComparesAcross};

use work_code::{BinOp, Expr};

/// Two places, the first of them below `left` and the second not, at which a row has one value
/// wherever the expression is not 0: those of the first test for equality among the parts that `&&`
/// joins. None where there is no such part. Takes no memory.
pub(crate) fn equal_places(e: &Expr, left: usize) -> Option<(usize, usize)>
    ensures some { IfSome result (λ places. HoldsEqual left (term e.now) places.0 places.1) }
    ensures none { IfNone result (NoneComparesAcross left (term e.now)) }
{
    match e {
        Expr::Bin {
            op,
            left: a,
            right: b,
        } => match op {
            BinOp::And => match equal_places(a, left) {
                Some(places) => Some(places),
                None => equal_places(b, left),
            },
            BinOp::Eq => across(input_of(a), input_of(b), left),
            _ => None,
        },
        _ => None,
    }
}

// The place of the input that an expression is.
fn input_of(e: &Expr) -> Option<usize>
    ensures some { IfSome result (λ place. term e.now ≡ Input place) }
    ensures none { IfNone result ((place : ℕ) → term e.now ≡ Input place → ⊥) }
{
    match e {
        Expr::Input(place) => Some(*place as usize),
        _ => None,
    }
}

// Two places, the lower first, of which one is below `left` and the other is not.
fn across(a: Option<usize>, b: Option<usize>, left: usize) -> Option<(usize, usize)>
    ensures some { IfSome result (IsAcross a b left) }
    ensures none { IfNone result ((places : ℕ × ℕ) → IsAcross a b left places → ⊥) }
{
    match (a, b) {
        (Some(i), Some(j)) if i < left && left <= j => Some((i, j)),
        (Some(i), Some(j)) if j < left && left <= i => Some((j, i)),
        _ => None,
    }
}
