// Split-joins read.
ghost use Rattle.text_forms.specs.Gives.{Gives};
ghost use Rattle.params_text.specs.Program.{dealing_of, rounds_of};
ghost use Rattle.params_text.specs.Reading.{split_after, split_at, join_at, in_both_at, both_at};
ghost use Rattle.params_text.specs.View.{split_join_of};

use crate::constant::constants;
use crate::step::steps;
use crate::{ParamSplit, ParamSplitJoin, Rounds, Steps};
use std::alloc::Global;
use streamit_text::parens;
use text_forms::{ParseFault, Reader, closed, is};
use text_tokens::Symbol;

// What stands behind `split`.
#[tactic(auto, unfolding(crate::specs::Reading::split_after))]
fn split_after(
    reader: &mut Reader<'_>,
    alloc: Global,
    brackets: u32,
    word: &[u8],
) -> Result<ParamSplit, ParseFault>
    ensures { Gives dealing_of result reader.new (split_after brackets word.now reader.old) }
{
    if is(word, b"duplicate") {
        parens(reader, brackets)?;
        return Ok(ParamSplit::Duplicate);
    }
    if is(word, b"roundrobin") {
        let weights = constants(reader, alloc, brackets)?;
        return Ok(ParamSplit::RoundRobin(Rounds { weights }));
    }
    Err(ParseFault::Syntax)
}

// `split ..;`
#[tactic(auto, unfolding(crate::specs::Reading::split_at))]
fn split(reader: &mut Reader<'_>, alloc: Global, brackets: u32) -> Result<ParamSplit, ParseFault>
    ensures { Gives dealing_of result reader.new (split_at brackets reader.old) }
{
    reader.word(b"split")?;
    let word = reader.name()?;
    let split = split_after(reader, alloc, brackets, word)?;
    closed(reader, split, Symbol::Semicolon)
}

// `join roundrobin ..;`
#[tactic(auto, unfolding(crate::specs::Reading::join_at))]
fn join(reader: &mut Reader<'_>, alloc: Global, brackets: u32) -> Result<Rounds, ParseFault>
    ensures { Gives rounds_of result reader.new (join_at brackets reader.old) }
{
    reader.word(b"join")?;
    reader.word(b"roundrobin")?;
    let weights = constants(reader, alloc, brackets)?;
    closed(reader, Rounds { weights }, Symbol::Semicolon)
}

// The splitter, the steps, and the joiner.
#[tactic(auto, unfolding(crate::specs::Reading::in_both_at), using(crate::proofs::StepTrees::steps))]
fn in_both(
    reader: &mut Reader<'_>,
    alloc: Global,
    brackets: u32,
) -> Result<ParamSplitJoin, ParseFault>
    ensures { Gives split_join_of result reader.new (in_both_at brackets reader.old) }
{
    let split = split(reader, alloc, brackets)?;
    let items = steps(reader, alloc, brackets)?;
    let join = join(reader, alloc, brackets)?;
    Ok(ParamSplitJoin {
        split,
        steps: Steps { items },
        join,
    })
}

/// `{` the splitter, the steps, and the joiner `}`
#[tactic(auto, unfolding(crate::specs::Reading::both_at))]
pub(crate) fn both(
    reader: &mut Reader<'_>,
    alloc: Global,
    brackets: u32,
) -> Result<ParamSplitJoin, ParseFault>
    ensures { Gives split_join_of result reader.new (both_at brackets reader.old) }
{
    let inner = reader.opens(Symbol::OpenBrace, brackets)?;
    let all = in_both(reader, alloc, inner)?;
    closed(reader, all, Symbol::CloseBrace)
}
