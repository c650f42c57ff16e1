// The units of a text.
ghost use Rattle.std.specs.Prelude.{◌≡◌, map, [], ◌∷◌, ◌++◌, OnOk, OnErr};
ghost use Rattle.text_tokens.specs.Cut.{unit_tokens};
ghost use Rattle.text_tokens.specs.Tok.{tokens_of};

use crate::Lexeme;
use river_base::NoMemory;
use std::alloc::Global;
use std::marker::Model;

/// The units of a text, in order. Contracts see the list of the units, each the list of its tokens.
#[derive(Drop)]
pub struct UnitList<'a> {
    parts: Vec<&'a [Lexeme<'a>]>,
}

impl<'a> Model for UnitList<'a> {
    ghost use Rattle.std.specs.Prelude.{List, map};
    ghost use Rattle.text_tokens.specs.Tok.{Tok, tokens_of};
    ghost use Rattle.text_tokens.specs.Cut.{unit_tokens};

    ghost Value = { List (List Tok) };

    ghost view = { λ u. map unit_tokens u.parts.items };
}

impl<'a> UnitList<'a> {
    // No unit.
    pub(crate) fn new(alloc: Global) -> Self
        ensures { result ≡ [] }
    {
        UnitList {
            parts: Vec::new(alloc),
        }
    }

    // Appends a unit; changes nothing where there is no memory.
    pub(crate) fn push(&mut self, unit: &'a [Lexeme<'a>]) -> Result<(), NoMemory>
        ensures ok { OnOk result (self.new ≡ self.old ++ tokens_of unit.now ∷ []) }
        ensures err { OnErr result (self.new ≡ self.old) }
    {
        self.parts.push(unit)?;
        Ok(())
    }

    /// The units as a slice of slices of tokens.
    pub fn as_slice(&self) -> &[&'a [Lexeme<'a>]]
        ensures { map unit_tokens result.now ≡ self.now }
    {
        self.parts.as_slice()
    }
}
