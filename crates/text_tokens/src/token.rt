// A token and its place.
use crate::Symbol;

/// A token. A name or a variable borrows its bytes from the source, the variable without its `$`.
#[derive(Clone, Copy)]
pub enum Token<'a> {
    /// A letter or `_`, then letters, digits, `_` and `@`.
    Name(&'a [u8]),
    /// `$` and then a name.
    Var(&'a [u8]),
    /// A decimal number, at most 9223372036854775807.
    Number(u64),
    /// A symbol.
    Sign(Symbol),
}

/// A token and the bytes of the source that it is, from `start` up to `end`.
#[derive(Clone, Copy)]
pub struct Lexeme<'a> {
    pub token: Token<'a>,
    pub start: u32,
    pub end: u32,
}
