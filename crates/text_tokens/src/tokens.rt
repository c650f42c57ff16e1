// The tokens of a text.
ghost use Rattle.std.specs.Prelude.{◌≡◌, List, map};
ghost use Rattle.text_tokens.specs.Tok.{Mark, mark_of};

use crate::Lexeme;
use std::marker::Model;

/// The tokens of a text, in order, each with its place. Contracts see the list of the tokens with their places.
#[derive(Drop)]
pub struct Tokens<'a> {
    pub(crate) lexemes: Vec<Lexeme<'a>>,
}

impl<'a> Model for Tokens<'a> {
    ghost use Rattle.std.specs.Prelude.{List, map};
    ghost use Rattle.text_tokens.specs.Tok.{Mark, mark_of};

    ghost Value = { List Mark };

    ghost view = { λ t. map mark_of t.lexemes.items };
}

impl<'a> Tokens<'a> {
    /// The tokens as a slice.
    pub fn as_slice(&self) -> &[Lexeme<'a>]
        ensures { map mark_of result.now ≡ self.now }
    {
        self.lexemes.as_slice()
    }
}
