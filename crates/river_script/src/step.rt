// Steps, and how one is read.
ghost use Rattle.text_forms.specs.Gives.{Gives};
ghost use Rattle.text_forms.specs.Texts.{whole};
ghost use Rattle.text_tokens.specs.Tok.{tokens_of};
ghost use Rattle.river_script.specs.Steps.{MakesStep, step_form};
ghost use Rattle.river_script.specs.Reading.{named_at, counted_at, step_after, step_at};

use river_base::{Listed, Name};
use text_forms::{ParseFault, Reader};
use text_tokens::{Lexeme, Symbol};

/// A step of a script.
#[derive(Clone, Copy)]
pub(crate) enum Step {
    /// The writer and the reader of this queue become one operator.
    Fuse(Name),
    /// The selection of this label changes places with the operator that feeds it.
    Hoist(Name),
    /// The operator of this label gives way to a splitter, so many replicas and a joiner.
    Fission { label: Name, n: u32 },
}

/// A list of steps.
pub(crate) type Steps = Listed<Step>;

// The name that is the rest of a step.
#[tactic(auto, unfolding(crate::specs::Reading::named_at))]
fn named(reader: &mut Reader<'_>) -> Result<Name, ParseFault>
    ensures { Gives (λ name. name) result reader.new (named_at reader.old) }
{
    let name = reader.short_name()?;
    reader.expect(&[Symbol::Semicolon])?;
    Ok(name)
}

// The name and the number that are the rest of a step.
#[tactic(auto, unfolding(crate::specs::Reading::counted_at))]
fn counted(reader: &mut Reader<'_>) -> Result<(Name, u32), ParseFault>
    ensures { Gives (λ v. v) result reader.new (counted_at reader.old) }
{
    let name = reader.short_name()?;
    let n = reader.count()?;
    reader.expect(&[Symbol::Semicolon])?;
    Ok((name, n))
}

// What stands behind the word of a step.
#[tactic(auto, unfolding(crate::specs::Reading::step_after))]
fn step_after(reader: &mut Reader<'_>, word: &[u8]) -> Result<Step, ParseFault>
    ensures { Gives step_form result reader.new (step_after word.now reader.old) }
{
    if word == b"fuse".as_slice() {
        return Ok(Step::Fuse(named(reader)?));
    }
    if word == b"hoist".as_slice() {
        return Ok(Step::Hoist(named(reader)?));
    }
    if word == b"fission".as_slice() {
        let (label, n) = counted(reader)?;
        return Ok(Step::Fission { label, n });
    }
    Err(ParseFault::Syntax)
}

// A step.
#[tactic(auto, unfolding(crate::specs::Reading::step_at))]
fn any_step(reader: &mut Reader<'_>) -> Result<Step, ParseFault>
    ensures { Gives step_form result reader.new (step_at reader.old) }
{
    let word = reader.name()?;
    step_after(reader, word)
}

/// The step that a whole unit is.
#[tactic(auto, using(crate::proofs::Wholes::wholes))]
pub(crate) fn whole_step(tokens: &[Lexeme<'_>]) -> Result<Step, ParseFault>
    ensures { MakesStep result (whole step_at (tokens_of tokens.now)) }
{
    let mut reader = Reader::new(tokens);
    let step = any_step(&mut reader)?;
    if !reader.is_at_end() {
        return Err(ParseFault::Syntax);
    }
    Ok(step)
}
