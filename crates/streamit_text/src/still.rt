// Whether `push`, `pop` or `peek` stands somewhere.
ghost use Rattle.std.specs.Prelude.{◌≡◌};
ghost use Rattle.streamit_text.specs.Grammar.{is_still, is_still_first, stays, stay, stay_optional};
ghost use Rattle.streamit_text.specs.Tree.{expression, option_expression, statement, block, optional_block};

use crate::{Block, Expr, Statement};

/// Whether no `push`, `pop` and `peek` stands in the expression.
pub fn is_still(e: &Expr) -> bool
    ensures { result ≡ is_still (expression e.now) }
{
    match e {
        Expr::Peek(_) | Expr::Pop => false,
        Expr::Neg(inner) | Expr::Not(inner) => is_still(inner),
        Expr::Bin { left, right, .. } => is_still(left) && is_still(right),
        Expr::Number(_) | Expr::Name(_) => true,
    }
}

// Whether none stands in the first value, if there is one.
fn is_still_first(value: &Option<Expr>) -> bool
    ensures { result ≡ is_still_first (option_expression value.now) }
{
    match value {
        Some(e) => is_still(e),
        None => true,
    }
}

// Whether none stands in the second arm, if there is one.
#[cycle(still)]
fn stays_optional(no: &Option<Block>) -> bool
    ensures { result ≡ stay_optional (optional_block no.now) }
{
    match no {
        Some(block) => stay(block),
        None => true,
    }
}

// Whether none stands in the statement.
#[cycle(still)]
#[tactic(auto, using(crate::proofs::Trees::trees))]
fn stays(one: &Statement) -> bool
    ensures { result ≡ stays (statement one.now) }
{
    match one {
        Statement::Declare { value, .. } => is_still_first(value),
        Statement::Assign { value, .. } => is_still(value),
        Statement::Push(_) | Statement::Pop => false,
        Statement::If { cond, yes, no } => is_still(cond) && stay(yes) && stays_optional(no),
        Statement::For {
            low,
            high,
            body,
            ..
        } => is_still(low) && is_still(high) && stay(body),
    }
}

/// Whether no `push`, `pop` and `peek` stands in the block.
#[cycle(still)]
#[tactic(auto, using(crate::proofs::Trees::trees))]
pub fn stay(all: &Block) -> bool
    ensures { result ≡ stay (block all.now) }
{
    'items: for each in all.items.as_slice() {
        if !stays(each) {
            return false;
        }
    }
    true
}
