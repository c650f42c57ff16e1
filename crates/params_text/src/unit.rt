// Units read.
ghost use Rattle.text_forms.specs.Gives.{Gives};
ghost use Rattle.params_text.specs.Program.{body_of, unit_form};
ghost use Rattle.params_text.specs.Reading.{body_after, kind_after, unit_at};

use crate::both::both;
use crate::constant::{params, stream_name};
use crate::filter::filter;
use crate::step::pipe;
use crate::{ParamBody, Unit};
use river_base::Name;
use std::alloc::Global;
use text_forms::{ParseFault, Reader, Units, is};
use text_tokens::Symbol;

// What stands behind the name and the parameters of a stream of this kind.
#[tactic(auto, unfolding(crate::specs::Reading::body_after))]
fn body_after(
    reader: &mut Reader<'_>,
    alloc: Global,
    brackets: u32,
    word: &[u8],
    params: &[Name],
) -> Result<ParamBody, ParseFault>
    ensures { Gives body_of result reader.new (body_after brackets word.now params.now reader.old) }
{
    if is(word, b"filter") {
        return Ok(ParamBody::Filter(filter(reader, alloc, params, brackets)?));
    }
    if is(word, b"pipeline") {
        return Ok(ParamBody::Pipeline(pipe(reader, alloc, brackets)?));
    }
    if is(word, b"splitjoin") {
        return Ok(ParamBody::SplitJoin(both(reader, alloc, brackets)?));
    }
    Err(ParseFault::Syntax)
}

// What stands behind the kind of a stream.
#[tactic(auto, unfolding(crate::specs::Reading::kind_after, crate::specs::Reading::with_params_at))]
fn kind_after(
    reader: &mut Reader<'_>,
    alloc: Global,
    brackets: u32,
    word: &[u8],
) -> Result<Unit, ParseFault>
    ensures { Gives unit_form result reader.new (kind_after brackets word.now reader.old) }
{
    let name = stream_name(reader)?;
    let params = params(reader, alloc, brackets)?;
    let body = body_after(reader, alloc, brackets, word, params.as_slice())?;
    Ok(Unit { name, params, body })
}

// A unit.
#[tactic(auto, unfolding(crate::specs::Reading::unit_at))]
fn unit(reader: &mut Reader<'_>, alloc: Global) -> Result<Unit, ParseFault>
    ensures { Gives unit_form result reader.new (unit_at reader.old) }
{
    reader.word(b"int")?;
    reader.expect(&[Symbol::Arrow])?;
    reader.word(b"int")?;
    let word = reader.name()?;
    kind_after(reader, alloc, 128, word)
}

/// The units of a program with parameters.
pub(crate) struct ParamUnits;

impl Units for ParamUnits {
    ghost use Rattle.params_text.specs.Program.{UnitForm, unit_form};
    ghost use Rattle.params_text.specs.Reading.{unit_at};

    type Unit = Unit;

    ghost UnitTree = { UnitForm };

    ghost unit_tree = { unit_form };

    ghost unit = { λ _. unit_at };

    fn unit(&self, reader: &mut Reader<'_>, alloc: Global) -> Result<Unit, ParseFault> {
        unit(reader, alloc)
    }
}
