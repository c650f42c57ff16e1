// Names read, and what is added by the names of streams.
ghost use Rattle.std.specs.Prelude.{◌≡◌, ◌≤◌, length, IfOk, IsTrue};
ghost use Rattle.std.specs.Option.{SomeIff};
ghost use Rattle.text_forms.specs.Gives.{Gives};
ghost use Rattle.streamit_text.specs.Program.{adds_of};
ghost use Rattle.streamit_text.specs.Blocks.{own_at};
ghost use Rattle.streamit_text.specs.Reading.{parens_at, called_at, add_at, more_adds_at, adds_at, pipe_at};
ghost use Rattle.streamit_text.specs.Words.{is_plain, is_own};

use crate::Adds;
use crate::statement::empty;
use river_base::Name;
use std::alloc::Global;
use text_forms::{ParseFault, Reader, closed, is_free};
use text_tokens::Symbol;

const KEYWORDS: &[&[u8]] = &[
    b"int",
    b"filter",
    b"pipeline",
    b"splitjoin",
    b"init",
    b"work",
    b"prework",
    b"push",
    b"pop",
    b"peek",
    b"add",
    b"split",
    b"join",
    b"duplicate",
    b"roundrobin",
    b"if",
    b"else",
    b"for",
];

// Whether a word has at most 40 bytes, no `@`, and is no keyword.
#[tactic(auto, unfolding(crate::specs::Words::is_plain))]
fn is_plain(word: &[u8]) -> bool
    ensures { result ≡ is_plain word.now }
{
    is_free(word, KEYWORDS)
}

/// The name that a word is, where users may give it.
pub fn own(word: &[u8]) -> Option<Name>
    ensures { SomeIff result (IsTrue (is_own word.now)) word.now }
{
    if is_plain(word) {
        Name::from_slice(word)
    } else {
        None
    }
}

/// A name that users may give.
#[tactic(auto, unfolding(crate::specs::Blocks::own_at), using(crate::proofs::Adding::names))]
pub fn name(reader: &mut Reader<'_>) -> Result<Name, ParseFault>
    ensures reads { Gives (λ name. name) result reader.new (own_at reader.old) }
    ensures short { IfOk result (λ name. length name ≤ 40) }
{
    let text = reader.name()?;
    match own(text) {
        Some(name) => Ok(name),
        None => Err(ParseFault::Syntax),
    }
}

/// `()`, or nothing.
#[tactic(auto, unfolding(crate::specs::Reading::parens_at))]
pub fn parens(reader: &mut Reader<'_>, brackets: u32) -> Result<(), ParseFault>
    ensures { Gives (λ u. u) result reader.new (parens_at brackets reader.old) }
{
    if reader.is_at(Symbol::Open) {
        empty(reader, brackets)?;
    }
    Ok(())
}

/// A stream's name, and `()` or nothing.
#[tactic(auto, unfolding(crate::specs::Reading::called_at))]
pub(crate) fn called(reader: &mut Reader<'_>, brackets: u32) -> Result<Name, ParseFault>
    ensures reads { Gives (λ name. name) result reader.new (called_at brackets reader.old) }
    ensures short { IfOk result (λ name. length name ≤ 40) }
{
    let name = name(reader)?;
    parens(reader, brackets)?;
    Ok(name)
}

// `add NAME;`
#[tactic(auto, unfolding(crate::specs::Reading::add_at))]
fn add(reader: &mut Reader<'_>, brackets: u32) -> Result<Name, ParseFault>
    ensures { Gives (λ name. name) result reader.new (add_at brackets reader.old) }
{
    reader.word(b"add")?;
    let name = called(reader, brackets)?;
    closed(reader, name, Symbol::Semicolon)
}

// As often as `add` comes.
#[tactic(auto, unfolding(crate::specs::Reading::more_adds_at), using(crate::proofs::Adding::more))]
fn more_adds(reader: &mut Reader<'_>, alloc: Global, brackets: u32) -> Result<Vec<Name>, ParseFault>
    ensures { Gives (λ names. names.items) result reader.new (more_adds_at brackets reader.old) }
{
    let mut names = Vec::new(alloc);
    'items: while reader.is_at_word(b"add") {
        names.push(add(reader, brackets)?)?;
    }
    Ok(names)
}

/// What is added, once or more.
#[tactic(auto, unfolding(crate::specs::Reading::adds_at))]
pub(crate) fn adds(
    reader: &mut Reader<'_>,
    alloc: Global,
    brackets: u32,
) -> Result<Adds, ParseFault>
    ensures { Gives adds_of result reader.new (adds_at brackets reader.old) }
{
    let first = add(reader, brackets)?;
    let others = more_adds(reader, alloc, brackets)?;
    Ok(Adds { first, others })
}

/// `{` what is added `}`
#[tactic(auto, unfolding(crate::specs::Reading::pipe_at))]
pub(crate) fn pipe(
    reader: &mut Reader<'_>,
    alloc: Global,
    brackets: u32,
) -> Result<Adds, ParseFault>
    ensures { Gives adds_of result reader.new (pipe_at brackets reader.old) }
{
    let inner = reader.opens(Symbol::OpenBrace, brackets)?;
    let adds = adds(reader, alloc, inner)?;
    closed(reader, adds, Symbol::CloseBrace)
}
