// Windows and From items read.
ghost use Rattle.std.specs.Prelude.{◌≡◌, map};
ghost use Rattle.text_forms.specs.Gives.{Gives};
ghost use Rattle.cql_text.specs.Grammar.{time_named};
ghost use Rattle.cql_text.specs.Reading.{time_at, span_at, range_at, rows_at, window_after, window_at, in_brackets_at, alias_at, called_at, source_at, sources_at};
ghost use Rattle.cql_text.specs.Tree.{window_of, source_of};

use crate::keywords::{is_at_alias, is_keyword, plain_name, takes_keyword};
use crate::value::numeral;
use crate::{Source, TimeUnit, Window};
use river_base::Name;
use std::alloc::Global;
use text_forms::{ParseFault, Reader};
use text_tokens::{Symbol, Token};

// The unit of time of this word.
fn unit_of(text: &[u8]) -> Option<TimeUnit>
    ensures { result ≡ time_named text.now }
{
    if is_keyword(text, b"second") {
        Some(TimeUnit::Second)
    } else if is_keyword(text, b"seconds") {
        Some(TimeUnit::Seconds)
    } else {
        None
    }
}

// A unit of time, or nothing.
#[tactic(auto, unfolding(crate::specs::Reading::time_at))]
fn time_unit(reader: &mut Reader<'_>) -> Result<Option<TimeUnit>, ParseFault>
    ensures { Gives (λ unit. unit) result reader.new (time_at reader.old) }
{
    let Some(Token::Name(text)) = reader.peek() else {
        return Ok(None);
    };
    let unit = unit_of(text);
    if unit.is_some() {
        reader.skip();
    }
    Ok(unit)
}

// `N`, and a unit of time or nothing.
#[tactic(auto, unfolding(crate::specs::Reading::span_at))]
fn span(reader: &mut Reader<'_>) -> Result<Window, ParseFault>
    ensures { Gives window_of result reader.new (span_at reader.old) }
{
    let count = numeral(reader)?;
    let unit = time_unit(reader)?;
    Ok(Window::Range(count, unit))
}

// What stands behind `Range`.
#[tactic(auto, unfolding(crate::specs::Reading::range_at))]
fn range(reader: &mut Reader<'_>) -> Result<Window, ParseFault>
    ensures { Gives window_of result reader.new (range_at reader.old) }
{
    if takes_keyword(reader, b"unbounded") {
        Ok(Window::Unbounded)
    } else {
        span(reader)
    }
}

// What stands behind `Rows`.
#[tactic(auto, unfolding(crate::specs::Reading::rows_at))]
fn rows(reader: &mut Reader<'_>) -> Result<Window, ParseFault>
    ensures { Gives window_of result reader.new (rows_at reader.old) }
{
    Ok(Window::Rows(reader.count()?))
}

// What stands behind the first word of a window.
#[tactic(auto, unfolding(crate::specs::Reading::window_after))]
fn window_after(reader: &mut Reader<'_>, word: &[u8]) -> Result<Window, ParseFault>
    ensures { Gives window_of result reader.new (window_after word.now reader.old) }
{
    if is_keyword(word, b"now") {
        return Ok(Window::Now);
    }
    if is_keyword(word, b"range") {
        return range(reader);
    }
    if is_keyword(word, b"rows") {
        return rows(reader);
    }
    Err(ParseFault::Syntax)
}

// A window in its brackets.
#[tactic(auto, unfolding(crate::specs::Reading::in_brackets_at, crate::specs::Reading::window_at))]
fn in_brackets(reader: &mut Reader<'_>) -> Result<Window, ParseFault>
    ensures { Gives window_of result reader.new (in_brackets_at reader.old) }
{
    reader.expect(&[Symbol::OpenBracket])?;
    let word = reader.name()?;
    let window = window_after(reader, word)?;
    reader.expect(&[Symbol::CloseBracket])?;
    Ok(window)
}

// A name of its own, behind `As` or not.
#[tactic(auto, unfolding(crate::specs::Reading::alias_at))]
fn alias(reader: &mut Reader<'_>) -> Result<Name, ParseFault>
    ensures { Gives (λ name. name) result reader.new (alias_at reader.old) }
{
    takes_keyword(reader, b"as");
    plain_name(reader)
}

// A name of its own, or nothing.
#[tactic(auto, unfolding(crate::specs::Reading::called_at))]
fn called(reader: &mut Reader<'_>) -> Result<Option<Name>, ParseFault>
    ensures { Gives (λ name. name) result reader.new (called_at reader.old) }
{
    if !is_at_alias(reader) {
        return Ok(None);
    }
    Ok(Some(alias(reader)?))
}

// A From item.
#[tactic(auto, unfolding(crate::specs::Reading::source_at))]
fn source(reader: &mut Reader<'_>) -> Result<Source, ParseFault>
    ensures { Gives source_of result reader.new (source_at reader.old) }
{
    let stream = plain_name(reader)?;
    let window = in_brackets(reader)?;
    let alias = called(reader)?;
    Ok(Source {
        stream,
        window,
        alias,
    })
}

/// From items, at least one.
#[tactic(auto, unfolding(crate::specs::Reading::sources_at), using(crate::proofs::Lists::sources))]
pub(crate) fn sources(reader: &mut Reader<'_>, alloc: Global) -> Result<Vec<Source>, ParseFault>
    ensures { Gives (λ list. map source_of list.items) result reader.new (sources_at reader.old) }
{
    let mut list = Vec::new(alloc);
    list.push(source(reader)?)?;
    // The parts are named, since the prover asks for their types here.
    'items: while reader.takes(Symbol::Comma) {
        let Source {
            stream,
            window,
            alias,
        } = source(reader)?;
        list.push(Source {
            stream,
            window,
            alias,
        })?;
    }
    Ok(list)
}
