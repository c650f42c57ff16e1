// Values of constants.
ghost use Rattle.std.specs.Prelude.{◌≡◌};
ghost use Rattle.streamit_text.specs.Tree.{expression};
ghost use Rattle.streamit_model.specs.Meaning.{nought};
ghost use Rattle.params_model.specs.Environment.{under, value, count_in};
ghost use Rattle.params_model.specs.Laws.{HasValues};

use crate::Bindings;
use river_base::{Name, count_of};
use streamit_text::Expr;
use work_code::{apply, negate, truth_of};

// The value of a name; one that is not known stands for 0.
#[tactic(auto, using(crate::proofs::Values::named))]
fn named(known: &Bindings, name: &Name) -> i64
    ensures { result ≡ under known.now nought name.now }
{
    match known.get(name) {
        Some(value) => value,
        None => 0,
    }
}

/// The value of a constant.
#[tactic(auto, using(crate::proofs::Values::values))]
pub fn value(known: &Bindings, c: &Expr) -> i64
    requires { HasValues (expression c.now) }
    ensures { result ≡ value known.now (expression c.now) }
{
    match c {
        Expr::Number(number) => *number as i64,
        Expr::Name(name) => named(known, name),
        Expr::Peek(_) | Expr::Pop => 0,
        Expr::Neg(inner) => negate(value(known, inner)),
        Expr::Not(inner) => truth_of(value(known, inner) == 0),
        Expr::Bin { op, left, right } => {
            let left = value(known, left);
            let right = value(known, right);
            apply(*op, left, right)
        }
    }
}

/// The value of a rate or a weight as a number; one below 0 counts as 0.
pub fn count(known: &Bindings, c: &Expr) -> u64
    requires { HasValues (expression c.now) }
    ensures { result ≡ count_in known.now (expression c.now) }
{
    count_of(value(known, c))
}
