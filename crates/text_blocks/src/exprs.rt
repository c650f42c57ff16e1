// Expressions as statements have them, and places.
ghost use Rattle.text_forms.specs.Gives.{Gives};
ghost use Rattle.text_forms.specs.Parse.{count_at};
ghost use Rattle.text_blocks.specs.Parts.{ended_at, round_at, square_at, first_value_at, optional};
ghost use Rattle.text_blocks.specs.Seven.{term_at};

use crate::{Terms, term};
use std::alloc::Global;
use text_forms::{ParseFault, Reader, closed};
use text_tokens::Symbol;

/// `e;`
#[tactic(auto, unfolding(crate::specs::Parts::ended_at))]
pub fn ended<T: Terms>(
    language: &T,
    reader: &mut Reader<'_>,
    alloc: Global,
    brackets: u32,
) -> Result<T::Tree, ParseFault>
    ensures { Gives T.view result reader.new (ended_at (term_at (T.marks language.now) (T.leaf language.now)) brackets reader.old) }
{
    let expr = term(language, reader, alloc, brackets)?;
    closed(reader, expr, Symbol::Semicolon)
}

/// `(e)`
#[tactic(auto, unfolding(crate::specs::Parts::round_at))]
pub fn round<T: Terms>(
    language: &T,
    reader: &mut Reader<'_>,
    alloc: Global,
    brackets: u32,
) -> Result<T::Tree, ParseFault>
    ensures { Gives T.view result reader.new (round_at (term_at (T.marks language.now) (T.leaf language.now)) brackets reader.old) }
{
    let inner = reader.opens(Symbol::Open, brackets)?;
    let expr = term(language, reader, alloc, inner)?;
    closed(reader, expr, Symbol::Close)
}

/// `[e]`
#[tactic(auto, unfolding(crate::specs::Parts::square_at))]
pub fn square<T: Terms>(
    language: &T,
    reader: &mut Reader<'_>,
    alloc: Global,
    brackets: u32,
) -> Result<T::Tree, ParseFault>
    ensures { Gives T.view result reader.new (square_at (term_at (T.marks language.now) (T.leaf language.now)) brackets reader.old) }
{
    let inner = reader.opens(Symbol::OpenBracket, brackets)?;
    let expr = term(language, reader, alloc, inner)?;
    closed(reader, expr, Symbol::CloseBracket)
}

/// `= e`, or nothing.
#[tactic(auto, unfolding(crate::specs::Parts::first_value_at))]
pub fn first_value<T: Terms>(
    language: &T,
    reader: &mut Reader<'_>,
    alloc: Global,
    brackets: u32,
) -> Result<Option<T::Tree>, ParseFault>
    ensures { Gives (optional T.view) result reader.new (first_value_at (term_at (T.marks language.now) (T.leaf language.now)) brackets reader.old) }
{
    if !reader.takes(Symbol::Assign) {
        return Ok(None);
    }
    Ok(Some(term(language, reader, alloc, brackets)?))
}

/// `[N]`, where N counts something: at most 2^32 - 1.
#[tactic(auto, unfolding(crate::specs::Parts::square_at))]
pub fn place(reader: &mut Reader<'_>, brackets: u32) -> Result<u32, ParseFault>
    ensures { Gives (λ value. value) result reader.new (square_at (λ m. count_at) brackets reader.old) }
{
    reader.opens(Symbol::OpenBracket, brackets)?;
    let value = reader.count()?;
    closed(reader, value, Symbol::CloseBracket)
}
