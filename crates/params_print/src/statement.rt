// Statements and blocks under values.
ghost use Rattle.std.specs.Prelude.{◌≡◌, ◌++◌, OnOk};
ghost use Rattle.streamit_text.specs.Tree.{Declare, Assign, Push, Discard, expression, option_expression, is_turn, statement, block, optional_block};
ghost use Rattle.text_tokens.specs.Spaced.{spaced};
ghost use Rattle.params_text.specs.Toks.{below, statement_toks, block_toks, else_toks};
ghost use Rattle.params_model.specs.Plain.{put_in, put_option, put_statement, put_block, put_optional};
ghost use Rattle.params_print.specs.Heads.{if_toks, for_toks};

use crate::Bindings;
use crate::expression::between;
use crate::token::tokens;
use river_base::{Bytes, Name, NoMemory};
use streamit_text::{Block, Expr, Statement, Until};
use text_tokens::{Symbol, Token};

// The symbol between a loop's variable and its upper bound.
fn below(until: Until) -> Symbol
    ensures { result ≡ below (is_turn until) }
{
    match until {
        Until::Below => Symbol::Less,
        Until::UpTo => Symbol::LessEqual,
    }
}

// Appends a declaration.
#[tactic(auto, using(crate::proofs::Texts::texts))]
fn declare(
    known: &Bindings,
    name: &Name,
    value: &Option<Expr>,
    to: &mut Bytes,
) -> Result<(), NoMemory>
    ensures { OnOk result (to.new ≡ to.old ++ spaced (statement_toks (Declare name.now (put_option known.now (option_expression value.now))))) }
{
    match value {
        None => {
            let all = [
                Token::Name(b"int"),
                Token::Name(name.as_slice()),
                Token::Sign(Symbol::Semicolon),
            ];
            tokens(&all, to)
        }
        Some(e) => {
            let before = [
                Token::Name(b"int"),
                Token::Name(name.as_slice()),
                Token::Sign(Symbol::Assign),
            ];
            between(known, &before, e, &[Token::Sign(Symbol::Semicolon)], to)
        }
    }
}

// Appends the head of a loop.
#[tactic(auto, using(crate::proofs::Texts::texts))]
fn head(
    known: &Bindings,
    name: &Name,
    low: &Expr,
    until: Until,
    high: &Expr,
    to: &mut Bytes,
) -> Result<(), NoMemory>
    ensures { OnOk result (to.new ≡ to.old
        ++ spaced (for_toks name.now (put_in known.now (expression low.now)) (is_turn until) (put_in known.now (expression high.now)))) }
{
    let before = [
        Token::Name(b"for"),
        Token::Sign(Symbol::Open),
        Token::Name(b"int"),
        Token::Name(name.as_slice()),
        Token::Sign(Symbol::Assign),
    ];
    let test = [Token::Name(name.as_slice()), Token::Sign(below(until))];
    let next = [
        Token::Sign(Symbol::Semicolon),
        Token::Name(name.as_slice()),
        Token::Sign(Symbol::Increment),
        Token::Sign(Symbol::Close),
    ];
    between(known, &before, low, &[Token::Sign(Symbol::Semicolon)], to)?;
    between(known, &test, high, &next, to)
}

// Appends an assignment.
#[tactic(auto, using(crate::proofs::Texts::texts))]
fn assign(known: &Bindings, name: &Name, value: &Expr, to: &mut Bytes) -> Result<(), NoMemory>
    ensures { OnOk result (to.new ≡ to.old ++ spaced (statement_toks (Assign name.now (put_in known.now (expression value.now))))) }
{
    let before = [Token::Name(name.as_slice()), Token::Sign(Symbol::Assign)];
    between(known, &before, value, &[Token::Sign(Symbol::Semicolon)], to)
}

// Appends a push.
#[tactic(auto, using(crate::proofs::Texts::texts))]
fn push(known: &Bindings, value: &Expr, to: &mut Bytes) -> Result<(), NoMemory>
    ensures { OnOk result (to.new ≡ to.old ++ spaced (statement_toks (Push (put_in known.now (expression value.now))))) }
{
    let before = [Token::Name(b"push"), Token::Sign(Symbol::Open)];
    let behind = [Token::Sign(Symbol::Close), Token::Sign(Symbol::Semicolon)];
    between(known, &before, value, &behind, to)
}

// Appends a pop.
fn discard(to: &mut Bytes) -> Result<(), NoMemory>
    ensures { OnOk result (to.new ≡ to.old ++ spaced (statement_toks Discard)) }
{
    let all = [
        Token::Name(b"pop"),
        Token::Sign(Symbol::Open),
        Token::Sign(Symbol::Close),
        Token::Sign(Symbol::Semicolon),
    ];
    tokens(&all, to)
}

// Appends the condition of an `if`.
#[tactic(auto, using(crate::proofs::Texts::texts))]
fn condition(known: &Bindings, e: &Expr, to: &mut Bytes) -> Result<(), NoMemory>
    ensures { OnOk result (to.new ≡ to.old ++ spaced (if_toks (put_in known.now (expression e.now)))) }
{
    let before = [Token::Name(b"if"), Token::Sign(Symbol::Open)];
    between(known, &before, e, &[Token::Sign(Symbol::Close)], to)
}

// Appends a statement.
#[cycle(statement)]
#[tactic(auto, using(crate::proofs::Texts::statements))]
fn statement(known: &Bindings, one: &Statement, to: &mut Bytes) -> Result<(), NoMemory>
    ensures { OnOk result (to.new ≡ to.old ++ spaced (statement_toks (put_statement known.now (statement one.now)))) }
{
    match one {
        Statement::Declare { name, value } => declare(known, name, value, to),
        Statement::Assign { name, value } => assign(known, name, value, to),
        Statement::Push(value) => push(known, value, to),
        Statement::Pop => discard(to),
        Statement::If { cond, yes, no } => {
            condition(known, cond, to)?;
            block(known, yes, to)?;
            otherwise(known, no, to)
        }
        Statement::For {
            name,
            low,
            until,
            high,
            body,
        } => {
            head(known, name, low, *until, high, to)?;
            block(known, body, to)
        }
    }
}

// Appends the second arm, where there is one.
#[cycle(statement)]
#[tactic(auto, using(crate::proofs::Texts::blocks))]
fn otherwise(known: &Bindings, no: &Option<Block>, to: &mut Bytes) -> Result<(), NoMemory>
    ensures { OnOk result (to.new ≡ to.old ++ spaced (else_toks (put_optional known.now (optional_block no.now)))) }
{
    match no {
        None => Ok(()),
        Some(all) => {
            tokens(&[Token::Name(b"else")], to)?;
            block(known, all, to)
        }
    }
}

/// Appends a block.
#[cycle(statement)]
#[tactic(auto, using(crate::proofs::Texts::blocks))]
pub(crate) fn block(known: &Bindings, all: &Block, to: &mut Bytes) -> Result<(), NoMemory>
    ensures { OnOk result (to.new ≡ to.old ++ spaced (block_toks (put_block known.now (block all.now)))) }
{
    tokens(&[Token::Sign(Symbol::OpenBrace)], to)?;
    'items: for each in all.items.as_slice() {
        statement(known, each, to)?;
    }
    tokens(&[Token::Sign(Symbol::CloseBrace)], to)
}
