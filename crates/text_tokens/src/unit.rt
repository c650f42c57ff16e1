// The cut of a text into units.
ghost use Rattle.std.specs.Prelude.{◌≡◌, ◌<◌, ◌+◌, ◌^◌, IfOk};
ghost use Rattle.text_tokens.specs.Tok.{token_of, tokens_of, toks};
ghost use Rattle.text_tokens.specs.Cut.{braces_after, ends_unit, is_else, unit_len, units_of};

use crate::cut::UnitList;
use crate::{Lexeme, Symbol, Token, Tokens};
use river_base::NoMemory;
use std::alloc::Global;

// Whether the next token is the word `else`.
fn is_else(rest: &[Lexeme<'_>]) -> bool
    ensures { result ≡ is_else (tokens_of rest.now) }
{
    match rest {
        [next, ..] => match next.token {
            Token::Name(text) => text == b"else".as_slice(),
            _ => false,
        },
        [] => false,
    }
}

// Whether a unit ends at this token.
#[tactic(auto, unfolding(crate::specs::Cut::ends_unit))]
fn ends_unit(braces: usize, token: &Token<'_>, rest: &[Lexeme<'_>]) -> bool
    ensures { result ≡ ends_unit braces (token_of token.now) (tokens_of rest.now) }
{
    match *token {
        Token::Sign(Symbol::Semicolon) => braces == 0,
        Token::Sign(Symbol::CloseBrace) => braces == 0 || braces == 1 && !is_else(rest),
        _ => false,
    }
}

// How many braces are open behind this token.
#[tactic(auto, unfolding(crate::specs::Cut::braces_after))]
fn braces_after(braces: usize, token: &Token<'_>) -> usize
    requires { braces + 1 < 2 ^ 64 }
    ensures { result ≡ braces_after braces (token_of token.now) }
{
    match *token {
        Token::Sign(Symbol::OpenBrace) => braces + 1,
        Token::Sign(Symbol::CloseBrace) => braces.saturating_sub(1),
        _ => braces,
    }
}

// How many tokens the first unit has.
#[tactic(auto, using(crate::proofs::Cuts::lengths))]
fn unit_len(lexemes: &[Lexeme<'_>]) -> usize
    ensures { result ≡ unit_len 0 (tokens_of lexemes.now) }
{
    let mut braces = 0;
    for n in 0..lexemes.len() {
        let (_, rest) = lexemes.split_at(n + 1);
        let lexeme = &lexemes[n];
        if ends_unit(braces, &lexeme.token, rest) {
            return n + 1;
        }
        braces = braces_after(braces, &lexeme.token);
    }
    lexemes.len()
}

/// The units of a text: a unit ends at a `;` outside braces, at a `}` with no open brace, or at a `}` that closes the
/// last open brace unless the next token is `else`. Tokens left at the end are a last unit.
///
/// # Errors
///
/// `NoMemory` where there is no memory.
#[tactic(auto, using(crate::proofs::Cuts::cuts))]
pub fn units<'u>(alloc: Global, tokens: &'u Tokens<'_>) -> Result<UnitList<'u>, NoMemory>
    ensures { IfOk result (λ units. units ≡ units_of (toks tokens.now)) }
{
    let lexemes = tokens.as_slice();
    let mut units = UnitList::new(alloc);
    let mut at = 0;
    while at < lexemes.len() {
        let (_, rest) = lexemes.split_at(at);
        let len = unit_len(rest);
        let (unit, _) = rest.split_at(len);
        units.push(unit)?;
        at += len;
    }
    Ok(units)
}
