// Declarations read.
ghost use Rattle.text_forms.specs.Gives.{Gives};
ghost use Rattle.river_text.specs.ReadPlans.{flat_after, flat_at, packed_at, type_at, decl_at};
ghost use Rattle.river_text.specs.ReadPlans.{cap_at, queue_at, header_at, kind_at, table_at, private_at};

use crate::number::{number, pair};
use kern_tables::TableKind;
use river_base::{FlatType, Name, QueueType};
use river_plan::{Decl, TableDecl};
use text_forms::{ParseFault, Reader, closed, is, kept};
use text_tokens::Symbol;

/// How many brackets may be open in a unit.
pub const BRACKETS: u32 = 128;

// What stands behind the word of a flat type.
#[tactic(auto, unfolding(crate::specs::ReadPlans::flat_after))]
fn flat_after(reader: &mut Reader<'_>, brackets: u32, word: &[u8]) -> Result<FlatType, ParseFault>
    ensures { Gives (λ kind. kind) result reader.new (flat_after brackets word.now reader.old) }
{
    if is(word, b"rows") {
        return Ok(FlatType::Rows(number(reader, brackets)?));
    }
    if is(word, b"stream") {
        return Ok(FlatType::Stream(number(reader, brackets)?));
    }
    if is(word, b"relation") {
        return Ok(FlatType::Relation(number(reader, brackets)?));
    }
    Err(ParseFault::Syntax)
}

// A flat type.
#[tactic(auto, unfolding(crate::specs::ReadPlans::flat_at))]
fn flat(reader: &mut Reader<'_>, brackets: u32) -> Result<FlatType, ParseFault>
    ensures { Gives (λ kind. kind) result reader.new (flat_at brackets reader.old) }
{
    let word = reader.name()?;
    flat_after(reader, brackets, word)
}

// A flat type in brackets.
#[tactic(auto, unfolding(crate::specs::ReadPlans::packed_at))]
fn packed(reader: &mut Reader<'_>) -> Result<FlatType, ParseFault>
    ensures { Gives (λ kind. kind) result reader.new (packed_at reader.old) }
{
    let inner = reader.opens(Symbol::Open, BRACKETS)?;
    let kind = flat(reader, inner)?;
    closed(reader, kind, Symbol::Close)
}

// A type.
#[tactic(auto, unfolding(crate::specs::ReadPlans::type_at, crate::specs::ReadPlans::type_after))]
fn queue_type(reader: &mut Reader<'_>) -> Result<QueueType, ParseFault>
    ensures { Gives (λ kind. kind) result reader.new (type_at reader.old) }
{
    let word = reader.name()?;
    if is(word, b"pack") {
        return Ok(QueueType::Pack(packed(reader)?));
    }
    Ok(QueueType::Flat(flat_after(reader, BRACKETS, word)?))
}

/// The declaration of a queue, behind its first word.
#[tactic(auto, unfolding(crate::specs::ReadPlans::decl_at))]
pub fn decl(reader: &mut Reader<'_>) -> Result<Decl, ParseFault>
    ensures { Gives (λ decl. decl) result reader.new (decl_at reader.old) }
{
    let name = reader.short_name()?;
    reader.expect(&[Symbol::Colon])?;
    let kind = queue_type(reader)?;
    closed(reader, Decl { name, kind }, Symbol::Semicolon)
}

/// The declaration of a queue that is neither an output nor an input.
#[derive(Clone, Copy)]
pub struct QueueDecl {
    /// Its name and what it carries.
    pub decl: Decl,
    /// How many items it holds at most, where the text says so.
    pub most: Option<u32>,
}

// `cap(N)`, or nothing.
#[tactic(auto, unfolding(crate::specs::ReadPlans::cap_at))]
fn cap(reader: &mut Reader<'_>) -> Result<Option<u32>, ParseFault>
    ensures { Gives (λ most. most) result reader.new (cap_at reader.old) }
{
    if !reader.is_at_word(b"cap") {
        return Ok(None);
    }
    reader.skip();
    Ok(Some(number(reader, BRACKETS)?))
}

/// The declaration of a queue that may have a capacity, behind its first word.
#[tactic(auto, unfolding(crate::specs::ReadPlans::queue_at))]
pub(crate) fn queue(reader: &mut Reader<'_>) -> Result<QueueDecl, ParseFault>
    ensures { Gives (λ queue. queue) result reader.new (queue_at reader.old) }
{
    let name = reader.short_name()?;
    reader.expect(&[Symbol::Colon])?;
    let kind = queue_type(reader)?;
    let most = cap(reader)?;
    let decl = Decl { name, kind };
    closed(reader, QueueDecl { decl, most }, Symbol::Semicolon)
}

/// The header of version 2, behind its first word.
#[tactic(auto, unfolding(crate::specs::ReadPlans::header_at))]
pub(crate) fn header(reader: &mut Reader<'_>) -> Result<u64, ParseFault>
    ensures { Gives (λ version. version) result reader.new (header_at reader.old) }
{
    let number = reader.number()?;
    let version = kept(number, number == 2)?;
    closed(reader, version, Symbol::Semicolon)
}

// The kind of a table.
#[tactic(auto, unfolding(crate::specs::ReadPlans::kind_at, crate::specs::ReadPlans::kind_after))]
fn table_kind(reader: &mut Reader<'_>) -> Result<TableKind, ParseFault>
    ensures { Gives (λ kind. kind) result reader.new (kind_at reader.old) }
{
    let word = reader.name()?;
    if is(word, b"sum") {
        let keys = number(reader, BRACKETS)?;
        return Ok(TableKind::Sum { keys });
    }
    if is(word, b"collection") {
        let keys = number(reader, BRACKETS)?;
        return Ok(TableKind::Collection { keys });
    }
    if is(word, b"maximum") {
        let (best, keys) = pair(reader, BRACKETS)?;
        return Ok(TableKind::Maximum { best, keys });
    }
    Err(ParseFault::Syntax)
}

/// The declaration of a table, behind its first word.
#[tactic(auto, unfolding(crate::specs::ReadPlans::table_at))]
pub(crate) fn table(reader: &mut Reader<'_>) -> Result<TableDecl, ParseFault>
    ensures { Gives (λ table. table) result reader.new (table_at reader.old) }
{
    let name = reader.short_var()?;
    reader.expect(&[Symbol::Colon])?;
    let kind = table_kind(reader)?;
    closed(reader, TableDecl { name, kind }, Symbol::Semicolon)
}

/// The declaration of a private variable, behind its first word.
#[tactic(auto, unfolding(crate::specs::ReadPlans::private_at))]
pub(crate) fn private(reader: &mut Reader<'_>) -> Result<Name, ParseFault>
    ensures { Gives (λ name. name) result reader.new (private_at reader.old) }
{
    let name = reader.short_var()?;
    closed(reader, name, Symbol::Semicolon)
}
