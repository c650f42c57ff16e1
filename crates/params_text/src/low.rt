// How deep the expressions of a block are, where a parameter counts as 3 deep.
ghost use Rattle.std.specs.Prelude.{◌≡◌, nat_le};
ghost use Rattle.streamit_text.specs.Tree.{expression, option_expression, statement, block, optional_block};
ghost use Rattle.params_text.specs.Params.{param_depth, is_low_first, lows, low, low_optional};

use crate::Parameters;
use streamit_text::{Block, Expr, Statement};

// Whether the expression is at most so deep.
#[tactic(auto, using(crate::proofs::Lows::withins))]
fn is_within(names: &Parameters, e: &Expr, most: u32) -> bool
    ensures { result ≡ nat_le (param_depth names.now (expression e.now)) most }
{
    match e {
        Expr::Number(_) | Expr::Pop => most >= 1,
        Expr::Name(name) => {
            if names.has(name) {
                most >= 3
            } else {
                most >= 1
            }
        }
        Expr::Peek(inner) | Expr::Neg(inner) | Expr::Not(inner) => {
            most >= 1 && is_within(names, inner, most - 1)
        }
        Expr::Bin { left, right, .. } => {
            most >= 1 && is_within(names, left, most - 1) && is_within(names, right, most - 1)
        }
    }
}

// Whether the first value is low, if there is one.
fn is_low_first(names: &Parameters, value: &Option<Expr>) -> bool
    ensures { result ≡ is_low_first names.now (option_expression value.now) }
{
    match value {
        Some(e) => is_within(names, e, 64),
        None => true,
    }
}

// Whether the second arm is, if there is one.
#[cycle(low)]
fn low_optional(names: &Parameters, no: &Option<Block>) -> bool
    ensures { result ≡ low_optional names.now (optional_block no.now) }
{
    match no {
        Some(block) => low(names, block),
        None => true,
    }
}

// Whether the expressions of the statement are.
#[cycle(low)]
#[tactic(auto, using(streamit_text::proofs::Trees::trees))]
fn lows(names: &Parameters, one: &Statement) -> bool
    ensures { result ≡ lows names.now (statement one.now) }
{
    match one {
        Statement::Declare { value, .. } => is_low_first(names, value),
        Statement::Assign { value, .. } | Statement::Push(value) => is_within(names, value, 64),
        Statement::Pop => true,
        Statement::If { cond, yes, no } => {
            is_within(names, cond, 64) && low(names, yes) && low_optional(names, no)
        }
        Statement::For {
            low: from,
            high: to,
            body,
            ..
        } => is_within(names, from, 64) && is_within(names, to, 64) && low(names, body),
    }
}

/// Whether each expression of the block is at most 64 deep, where a parameter counts as 3 deep.
#[cycle(low)]
#[tactic(auto, using(streamit_text::proofs::Trees::trees))]
pub(crate) fn low(names: &Parameters, all: &Block) -> bool
    ensures { result ≡ low names.now (block all.now) }
{
    'items: for each in all.items.as_slice() {
        if !lows(names, each) {
            return false;
        }
    }
    true
}
