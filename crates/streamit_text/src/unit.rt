// Units read.
ghost use Rattle.text_forms.specs.Gives.{Gives};
ghost use Rattle.streamit_text.specs.Program.{body_of, unit_form};
ghost use Rattle.streamit_text.specs.Reading.{body_after, kind_after, unit_at};

use crate::filter::filter;
use crate::names::{called, pipe};
use crate::rounds::both;
use crate::{Body, Plain, StreamitGrammar, Unit};
use std::alloc::Global;
use text_forms::{ParseFault, Reader, Units, is};
use text_tokens::Symbol;

// What stands behind the name of a stream of this kind.
#[tactic(auto, unfolding(crate::specs::Reading::body_after))]
fn body_after(
    reader: &mut Reader<'_>,
    alloc: Global,
    brackets: u32,
    word: &[u8],
) -> Result<Body, ParseFault>
    ensures { Gives body_of result reader.new (body_after brackets word.now reader.old) }
{
    if is(word, b"filter") {
        return Ok(Body::Filter(filter(reader, alloc, brackets)?));
    }
    if is(word, b"pipeline") {
        return Ok(Body::Pipeline(pipe(reader, alloc, brackets)?));
    }
    if is(word, b"splitjoin") {
        return Ok(Body::SplitJoin(both(reader, alloc, brackets)?));
    }
    Err(ParseFault::Syntax)
}

// What stands behind the kind of a stream.
#[tactic(auto, unfolding(crate::specs::Reading::kind_after))]
fn kind_after(
    reader: &mut Reader<'_>,
    alloc: Global,
    brackets: u32,
    word: &[u8],
) -> Result<Unit, ParseFault>
    ensures { Gives unit_form result reader.new (kind_after brackets word.now reader.old) }
{
    let name = called(reader, brackets)?;
    let body = body_after(reader, alloc, brackets, word)?;
    Ok(Unit { name, body })
}

// A unit.
#[tactic(auto, unfolding(crate::specs::Reading::unit_at))]
fn unit(reader: &mut Reader<'_>, alloc: Global) -> Result<Unit, ParseFault>
    ensures { Gives unit_form result reader.new (unit_at reader.old) }
{
    reader.word(b"int")?;
    reader.expect(&[Symbol::Arrow])?;
    reader.word(b"int")?;
    let word = reader.name()?;
    kind_after(reader, alloc, 128, word)
}

impl Units for StreamitGrammar<Plain> {
    ghost use Rattle.streamit_text.specs.Program.{UnitForm, unit_form};
    ghost use Rattle.streamit_text.specs.Reading.{unit_at};

    type Unit = Unit;

    ghost UnitTree = { UnitForm };

    ghost unit_tree = { unit_form };

    ghost unit = { λ _. unit_at };

    fn unit(&self, reader: &mut Reader<'_>, alloc: Global) -> Result<Unit, ParseFault> {
        unit(reader, alloc)
    }
}
