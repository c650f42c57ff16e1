// What stands at the front of a text.
ghost use Rattle.std.specs.Prelude.{◌≡◌, ◌<◌, ◌≤◌, ◌+◌, take, drop, length};
ghost use Rattle.std.specs.List.{prefix_len};
ghost use Rattle.text_tokens.specs.Symbols.{short_symbol};
ghost use Rattle.text_tokens.specs.Lexis.{is_word, is_digit, begins_with, block_end, block_piece, decimal_from, name_piece, number_piece, var_piece, short_piece, symbol_piece, piece_at, Limited};
ghost use Rattle.text_tokens.specs.Pieces.{piece_of, PieceFits};

use crate::Token;
use crate::byte::{Class, first_is, run_len};
use crate::sign::{long_symbol, short_symbol};

/// What a text begins with, and of how many bytes it is.
#[derive(Clone, Copy)]
pub(crate) enum Piece<'a> {
    /// A separator or a comment.
    Blank(usize),
    /// A token.
    Token(Token<'a>, usize),
    /// No token, separator or comment.
    Bad,
    /// A number that is too great.
    Big,
}

// Whether the text begins with this byte.
#[tactic(auto, unfolding(crate::specs::Lexis::begins_with))]
fn begins_with(byte: u8, text: &[u8]) -> bool
    ensures { result ≡ begins_with byte text.now }
{
    match text {
        [first, ..] => *first == byte,
        [] => false,
    }
}

// Where the first `*/` behind two bytes ends.
#[tactic(auto, using(crate::proofs::Pieces::blocks))]
fn block_end(text: &[u8]) -> Option<usize>
    requires { 2 ≤ length text.now }
    ensures { result ≡ block_end 2 (drop 2 text.now) }
{
    for n in 2..text.len() {
        let (_, rest) = text.split_at(n);
        let (_, after) = rest.split_at(1);
        if begins_with(b'*', rest) && begins_with(b'/', after) {
            return Some(n + 2);
        }
    }
    None
}

// The number with these digits, unless it is too great.
#[tactic(auto, using(crate::proofs::Pieces::decimals))]
fn decimal(digits: &[u8]) -> Option<u64>
    ensures { Limited result (decimal_from 0 digits.now) }
{
    let mut value: u64 = 0;
    for n in 0..digits.len() {
        let digit = u64::from(digits[n].saturating_sub(b'0'));
        if value > (9_223_372_036_854_775_807 - digit) / 10 {
            return None;
        }
        value = value * 10 + digit;
    }
    Some(value)
}

// A comment that begins with `/*`.
fn block_piece<'a>(text: &'a [u8]) -> Piece<'a>
    requires { 2 ≤ length text.now }
    ensures { piece_of result ≡ block_piece (block_end 2 (drop 2 text.now)) }
{
    match block_end(text) {
        Some(len) => Piece::Blank(len),
        None => Piece::Bad,
    }
}

// A name.
#[tactic(auto, using(crate::proofs::Pieces::fronts))]
fn name_piece<'a>(text: &'a [u8]) -> Piece<'a>
    ensures { piece_of result ≡ name_piece (prefix_len is_word text.now) text.now }
{
    let len = run_len(Class::Word, text);
    let (name, _) = text.split_at(len);
    Piece::Token(Token::Name(name), len)
}

// What stands behind a dollar sign.
#[tactic(auto, unfolding(crate::specs::Lexis::var_piece), using(crate::proofs::Pieces::fronts))]
fn var_piece<'a>(text: &'a [u8]) -> Piece<'a>
    ensures { piece_of result ≡ var_piece text.now }
{
    if !first_is(Class::Letter, text) {
        return Piece::Bad;
    }
    let len = run_len(Class::Word, text);
    let (name, _) = text.split_at(len);
    Piece::Token(Token::Var(name), len + 1)
}

// A number.
#[tactic(auto, using(crate::proofs::Pieces::numbers))]
fn number_piece<'a>(text: &'a [u8]) -> Piece<'a>
    ensures { piece_of result ≡ number_piece (decimal_from 0 (take (prefix_len is_digit text.now) text.now)) (prefix_len is_digit text.now) }
{
    let len = run_len(Class::Digit, text);
    let (digits, _) = text.split_at(len);
    match decimal(digits) {
        Some(value) => Piece::Token(Token::Number(value), len),
        None => Piece::Big,
    }
}

// The longest symbol.
#[tactic(auto, unfolding(crate::specs::Lexis::symbol_piece))]
fn symbol_piece<'a>(text: &'a [u8]) -> Piece<'a>
    ensures { piece_of result ≡ symbol_piece text.now }
{
    match text {
        [] => Piece::Bad,
        [first] => short_piece(*first),
        [first, second, ..] => match long_symbol(*first, *second) {
            Some(symbol) => Piece::Token(Token::Sign(symbol), 2),
            None => short_piece(*first),
        },
    }
}

// The symbol of one byte.
fn short_piece<'a>(first: u8) -> Piece<'a>
    ensures { piece_of result ≡ short_piece (short_symbol first) }
{
    match short_symbol(first) {
        Some(symbol) => Piece::Token(Token::Sign(symbol), 1),
        None => Piece::Bad,
    }
}

/// The piece at the front of a text that is not empty; it is no longer than the text.
#[tactic(auto, using(crate::proofs::Rooms::rooms))]
pub(crate) fn next_piece<'a>(text: &'a [u8]) -> Piece<'a>
    requires { 0 < length text.now }
    ensures piece { piece_of result ≡ piece_at text.now }
    ensures room { PieceFits (length text.now) (piece_of result) }
{
    first_piece(text)
}

// The piece at the front.
#[tactic(auto, unfolding(crate::specs::Lexis::piece_at), using(crate::proofs::Pieces::fronts))]
fn first_piece<'a>(text: &'a [u8]) -> Piece<'a>
    requires { 0 < length text.now }
    ensures { piece_of result ≡ piece_at text.now }
{
    if first_is(Class::Blank, text) {
        return Piece::Blank(1);
    }
    let (_, rest) = text.split_at(1);
    if begins_with(b'#', text) || begins_with(b'/', text) && begins_with(b'/', rest) {
        return Piece::Blank(run_len(Class::InLine, text));
    }
    if begins_with(b'/', text) && begins_with(b'*', rest) {
        return block_piece(text);
    }
    if first_is(Class::Letter, text) {
        return name_piece(text);
    }
    if begins_with(b'$', text) {
        return var_piece(rest);
    }
    if first_is(Class::Digit, text) {
        return number_piece(text);
    }
    symbol_piece(text)
}
