// Tokens written out, each with a blank behind it.
ghost use Rattle.std.specs.Prelude.{◌≡◌, ◌++◌, map, OnOk};
ghost use Rattle.text_tokens.specs.Symbols.{symbol_bytes};
ghost use Rattle.text_tokens.specs.Tok.{token_of};
ghost use Rattle.text_tokens.specs.Spaced.{token_bytes, spaced};

use river_base::{Bytes, NoMemory};
use text_tokens::{Symbol, Token};

// The bytes of a symbol.
fn bytes_of(symbol: Symbol) -> &'static [u8]
    ensures { result.now ≡ symbol_bytes symbol }
{
    match symbol {
        Symbol::Plus => b"+",
        Symbol::Minus => b"-",
        Symbol::Star => b"*",
        Symbol::Slash => b"/",
        Symbol::Percent => b"%",
        Symbol::Open => b"(",
        Symbol::Close => b")",
        Symbol::OpenBracket => b"[",
        Symbol::CloseBracket => b"]",
        Symbol::OpenBrace => b"{",
        Symbol::CloseBrace => b"}",
        Symbol::Comma => b",",
        Symbol::Semicolon => b";",
        Symbol::Colon => b":",
        Symbol::Dot => b".",
        Symbol::Assign => b"=",
        Symbol::Equal => b"==",
        Symbol::NotEqual => b"!=",
        Symbol::Different => b"<>",
        Symbol::Less => b"<",
        Symbol::LessEqual => b"<=",
        Symbol::Greater => b">",
        Symbol::GreaterEqual => b">=",
        Symbol::And => b"&&",
        Symbol::Or => b"||",
        Symbol::Not => b"!",
        Symbol::Increment => b"++",
        Symbol::Arrow => b"->",
    }
}

// Appends a token.
#[tactic(auto, using(crate::proofs::Texts::joins))]
fn token(token: &Token<'_>, to: &mut Bytes) -> Result<(), NoMemory>
    ensures { OnOk result (to.new ≡ to.old ++ token_bytes (token_of token.now)) }
{
    match *token {
        Token::Name(text) => to.extend(text),
        Token::Var(text) => {
            to.extend(b"$")?;
            to.extend(text)
        }
        Token::Number(number) => to.put_number(number),
        Token::Sign(symbol) => to.extend(bytes_of(symbol)),
    }
}

/// Appends tokens, each with a blank behind it.
#[tactic(auto, using(crate::proofs::Texts::joins))]
pub(crate) fn tokens(all: &[Token<'_>], to: &mut Bytes) -> Result<(), NoMemory>
    ensures { OnOk result (to.new ≡ to.old ++ spaced (map token_of all.now)) }
{
    'all: for each in all {
        token(each, to)?;
        to.extend(b" ")?;
    }
    Ok(())
}
