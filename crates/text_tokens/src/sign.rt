// The symbols of a program's text.
ghost use Rattle.std.specs.Prelude.{◌≡◌};
ghost use Rattle.text_tokens.specs.Symbols.{short_symbol, long_symbol};

/// A symbol. `Or` is `||`, `Different` is `<>` and `NotEqual` is `!=`.
#[derive(Clone, Copy, PartialEq, Eq)]
pub enum Symbol {
    Plus,
    Minus,
    Star,
    Slash,
    Percent,
    Open,
    Close,
    OpenBracket,
    CloseBracket,
    OpenBrace,
    CloseBrace,
    Comma,
    Semicolon,
    Colon,
    Dot,
    Assign,
    Equal,
    NotEqual,
    Different,
    Less,
    LessEqual,
    Greater,
    GreaterEqual,
    And,
    Or,
    Not,
    Increment,
    Arrow,
}

/// The symbol that is this byte alone.
#[tactic(auto, unfolding(crate::specs::Symbols::short_symbol))]
pub(crate) fn short_symbol(first: u8) -> Option<Symbol>
    ensures { result ≡ short_symbol first }
{
    match first {
        b'+' => Some(Symbol::Plus),
        b'-' => Some(Symbol::Minus),
        b'*' => Some(Symbol::Star),
        b'/' => Some(Symbol::Slash),
        b'%' => Some(Symbol::Percent),
        b'(' => Some(Symbol::Open),
        b')' => Some(Symbol::Close),
        b'[' => Some(Symbol::OpenBracket),
        b']' => Some(Symbol::CloseBracket),
        b'{' => Some(Symbol::OpenBrace),
        b'}' => Some(Symbol::CloseBrace),
        b',' => Some(Symbol::Comma),
        b';' => Some(Symbol::Semicolon),
        b':' => Some(Symbol::Colon),
        b'.' => Some(Symbol::Dot),
        b'=' => Some(Symbol::Assign),
        b'<' => Some(Symbol::Less),
        b'>' => Some(Symbol::Greater),
        b'!' => Some(Symbol::Not),
        _ => None,
    }
}

/// The symbol that is these two bytes.
#[tactic(auto, unfolding(crate::specs::Symbols::long_symbol))]
pub(crate) fn long_symbol(first: u8, second: u8) -> Option<Symbol>
    ensures { result ≡ long_symbol first second }
{
    match (first, second) {
        (b'=', b'=') => Some(Symbol::Equal),
        (b'!', b'=') => Some(Symbol::NotEqual),
        (b'<', b'>') => Some(Symbol::Different),
        (b'<', b'=') => Some(Symbol::LessEqual),
        (b'>', b'=') => Some(Symbol::GreaterEqual),
        (b'&', b'&') => Some(Symbol::And),
        (b'|', b'|') => Some(Symbol::Or),
        (b'+', b'+') => Some(Symbol::Increment),
        (b'-', b'>') => Some(Symbol::Arrow),
        _ => None,
    }
}
