// Constants judged: whether their names are known.
ghost use Rattle.std.specs.Prelude.{◌≡◌};
ghost use Rattle.text_blocks.specs.Parts.{optional};
ghost use Rattle.streamit_text.specs.Tree.{expression};
ghost use Rattle.params_text.specs.Program.{expressions, rounds_of};
ghost use Rattle.params_model.specs.Judged.{are_known, all_known, known_option, all_known_option};

use crate::names::KnownNames;
use params_text::Rounds;
use streamit_text::Expr;

/// Whether each name of the constant is one of these.
#[tactic(auto, using(crate::proofs::Trees::names))]
pub(crate) fn are_known(names: &KnownNames, c: &Expr) -> bool
    ensures { result ≡ are_known names.now (expression c.now) }
{
    match c {
        Expr::Number(_) | Expr::Pop => true,
        Expr::Name(name) => names.has(name),
        Expr::Peek(inner) | Expr::Neg(inner) | Expr::Not(inner) => are_known(names, inner),
        Expr::Bin { left, right, .. } => are_known(names, left) && are_known(names, right),
    }
}

/// Whether each name of the constants is.
pub(crate) fn all_known(names: &KnownNames, cs: &Vec<Expr>) -> bool
    ensures { result ≡ all_known names.now (expressions cs.now) }
{
    'items: for each in cs.as_slice() {
        if !are_known(names, each) {
            return false;
        }
    }
    true
}

/// Whether each name of a rate is, where it is written.
pub(crate) fn known_option(names: &KnownNames, c: &Option<Expr>) -> bool
    ensures { result ≡ known_option names.now (optional expression c.now) }
{
    match c {
        Some(c) => are_known(names, c),
        None => true,
    }
}

/// Whether each name of the weights is, where there are brackets.
pub(crate) fn all_known_option(names: &KnownNames, rounds: &Rounds) -> bool
    ensures { result ≡ all_known_option names.now (rounds_of rounds.now) }
{
    match &rounds.weights {
        Some(cs) => all_known(names, cs),
        None => true,
    }
}
