// Expressions under values: each parameter is written as its value.
ghost use Rattle.std.specs.Prelude.{◌≡◌, ◌++◌, map, OnOk};
ghost use Rattle.river_base.specs.Number.{least_value};
ghost use Rattle.text_tokens.specs.Tok.{token_of};
ghost use Rattle.text_blocks.specs.Seven.{sign_of};
ghost use Rattle.streamit_text.specs.Tree.{Bin, expression};
ghost use Rattle.streamit_model.specs.Meaning.{look};
ghost use Rattle.text_tokens.specs.Spaced.{spaced};
ghost use Rattle.params_text.specs.Toks.{expr_toks};
ghost use Rattle.params_model.specs.Plain.{literal, literal_or, put_in};

use crate::Bindings;
use crate::token::tokens;
use river_base::{Bytes, Name, NoMemory};
use streamit_text::Expr;
use text_tokens::{Symbol, Token};
use work_code::BinOp;

// The symbol of an operator.
fn sign_of(op: BinOp) -> Symbol
    ensures { result ≡ sign_of op }
{
    match op {
        BinOp::Add => Symbol::Plus,
        BinOp::Sub => Symbol::Minus,
        BinOp::Mul => Symbol::Star,
        BinOp::Quot => Symbol::Slash,
        BinOp::Rem => Symbol::Percent,
        BinOp::Eq => Symbol::Equal,
        BinOp::Ne => Symbol::NotEqual,
        BinOp::Lt => Symbol::Less,
        BinOp::Le => Symbol::LessEqual,
        BinOp::Gt => Symbol::Greater,
        BinOp::Ge => Symbol::GreaterEqual,
        BinOp::And => Symbol::And,
        BinOp::Or => Symbol::Or,
    }
}

// Appends the least value, which is no number with its sign turned.
fn least(to: &mut Bytes) -> Result<(), NoMemory>
    ensures { OnOk result (to.new ≡ to.old ++ spaced (expr_toks (literal least_value))) }
{
    tokens(
        &[
            Token::Sign(Symbol::Open),
            Token::Sign(Symbol::Open),
            Token::Sign(Symbol::Minus),
            Token::Number(9_223_372_036_854_775_807),
            Token::Sign(Symbol::Close),
            Token::Sign(Symbol::Minus),
            Token::Number(1),
            Token::Sign(Symbol::Close),
        ],
        to,
    )
}

// Appends a value.
fn literal(value: i64, to: &mut Bytes) -> Result<(), NoMemory>
    ensures { OnOk result (to.new ≡ to.old ++ spaced (expr_toks (literal value))) }
{
    if value == i64::MIN {
        return least(to);
    }
    if value >= 0 {
        return tokens(&[Token::Number(value as u64)], to);
    }
    tokens(
        &[
            Token::Sign(Symbol::Open),
            Token::Sign(Symbol::Minus),
            Token::Number(value.unsigned_abs()),
            Token::Sign(Symbol::Close),
        ],
        to,
    )
}

// Appends a name, or its value where it has one.
fn named(known: &Bindings, name: &Name, to: &mut Bytes) -> Result<(), NoMemory>
    ensures { OnOk result (to.new ≡ to.old ++ spaced (expr_toks (literal_or name.now (look known.now name.now)))) }
{
    match known.get(name) {
        Some(value) => literal(value, to),
        None => tokens(&[Token::Name(name.as_slice())], to),
    }
}

// Appends an expression.
#[cycle(expression)]
#[tactic(auto, using(crate::proofs::Texts::texts))]
pub(crate) fn expression(known: &Bindings, e: &Expr, to: &mut Bytes) -> Result<(), NoMemory>
    ensures { OnOk result (to.new ≡ to.old ++ spaced (expr_toks (put_in known.now (expression e.now)))) }
{
    let open = Token::Sign(Symbol::Open);
    let close = Token::Sign(Symbol::Close);
    match e {
        Expr::Number(number) => tokens(&[Token::Number(*number)], to),
        Expr::Name(name) => named(known, name, to),
        Expr::Peek(inner) => between(known, &[Token::Name(b"peek"), open], inner, &[close], to),
        Expr::Pop => tokens(&[Token::Name(b"pop"), open, close], to),
        Expr::Neg(inner) => {
            let minus = Token::Sign(Symbol::Minus);
            between(known, &[open, minus], inner, &[close], to)
        }
        Expr::Not(inner) => {
            let not = Token::Sign(Symbol::Not);
            between(known, &[open, not], inner, &[close], to)
        }
        Expr::Bin { op, left, right } => operation(known, *op, left, right, to),
    }
}

// Appends an operation in brackets of its own.
#[cycle(expression)]
#[tactic(auto, using(crate::proofs::Texts::texts))]
fn operation(
    known: &Bindings,
    op: BinOp,
    left: &Expr,
    right: &Expr,
    to: &mut Bytes,
) -> Result<(), NoMemory>
    ensures { OnOk result (to.new ≡ to.old ++ spaced (expr_toks (Bin op (put_in known.now (expression left.now)) (put_in known.now (expression right.now))))) }
{
    let sign = [Token::Sign(sign_of(op))];
    between(known, &[Token::Sign(Symbol::Open)], left, &sign, to)?;
    between(known, &[], right, &[Token::Sign(Symbol::Close)], to)
}

/// Appends an expression between tokens.
#[cycle(expression)]
#[tactic(auto, using(crate::proofs::Texts::texts))]
pub(crate) fn between(
    known: &Bindings,
    before: &[Token<'_>],
    e: &Expr,
    behind: &[Token<'_>],
    to: &mut Bytes,
) -> Result<(), NoMemory>
    ensures { OnOk result (to.new ≡ to.old
        ++ spaced (map token_of before.now ++ (expr_toks (put_in known.now (expression e.now)) ++ map token_of behind.now))) }
{
    tokens(before, to)?;
    expression(known, e, to)?;
    tokens(behind, to)
}
