// Splitters and joiners read.
ghost use Rattle.text_forms.specs.Gives.{Gives};
ghost use Rattle.streamit_text.specs.Program.{weights_of, dealing_of};
ghost use Rattle.streamit_text.specs.Reading.{weight_at, some_weights_at, listed_at, weights_at, split_after, split_at, join_at, in_both_at, both_at};
ghost use Rattle.streamit_text.specs.View.{split_join_of};

use crate::names::{adds, parens};
use crate::{RoundRobin, Split, SplitJoin};
use std::alloc::Global;
use text_forms::{ParseFault, Reader, closed, is};
use text_tokens::Symbol;

// A weight.
#[tactic(auto, unfolding(crate::specs::Reading::weight_at))]
fn weight(reader: &mut Reader<'_>) -> Result<u64, ParseFault>
    ensures { Gives (λ w. w) result reader.new (weight_at reader.old) }
{
    let value = reader.number()?;
    if value <= 9_223_372_036_854_775_807 {
        Ok(value)
    } else {
        Err(ParseFault::Syntax)
    }
}

// Weights with commas between them, at least one.
#[tactic(auto, unfolding(crate::specs::Reading::some_weights_at), using(crate::proofs::Weighing::weights))]
fn some_weights(reader: &mut Reader<'_>, alloc: Global) -> Result<Vec<u64>, ParseFault>
    ensures { Gives (λ ws. ws.items) result reader.new (some_weights_at reader.old) }
{
    let mut list = Vec::new(alloc);
    list.push(weight(reader)?)?;
    'items: while reader.takes(Symbol::Comma) {
        list.push(weight(reader)?)?;
    }
    Ok(list)
}

// Weights in brackets, or none in them.
#[tactic(auto, unfolding(crate::specs::Reading::listed_at, crate::specs::Reading::some_weights_at, text_blocks::specs::Parts::round_at))]
fn listed(reader: &mut Reader<'_>, alloc: Global, brackets: u32) -> Result<Vec<u64>, ParseFault>
    ensures { Gives (λ ws. ws.items) result reader.new (listed_at brackets reader.old) }
{
    reader.opens(Symbol::Open, brackets)?;
    let list = if reader.is_at(Symbol::Close) {
        Vec::new(alloc)
    } else {
        some_weights(reader, alloc)?
    };
    closed(reader, list, Symbol::Close)
}

// Weights in brackets, or no brackets.
#[tactic(auto, unfolding(crate::specs::Reading::weights_at))]
fn weights(reader: &mut Reader<'_>, alloc: Global, brackets: u32) -> Result<RoundRobin, ParseFault>
    ensures { Gives weights_of result reader.new (weights_at brackets reader.old) }
{
    if !reader.is_at(Symbol::Open) {
        return Ok(RoundRobin { weights: None });
    }
    let weights = listed(reader, alloc, brackets)?;
    Ok(RoundRobin {
        weights: Some(weights),
    })
}

// What stands behind `split`.
#[tactic(auto, unfolding(crate::specs::Reading::split_after))]
fn split_after(
    reader: &mut Reader<'_>,
    alloc: Global,
    brackets: u32,
    word: &[u8],
) -> Result<Split, ParseFault>
    ensures { Gives dealing_of result reader.new (split_after brackets word.now reader.old) }
{
    if is(word, b"duplicate") {
        parens(reader, brackets)?;
        return Ok(Split::Duplicate);
    }
    if is(word, b"roundrobin") {
        return Ok(Split::RoundRobin(weights(reader, alloc, brackets)?));
    }
    Err(ParseFault::Syntax)
}

// `split ..;`
#[tactic(auto, unfolding(crate::specs::Reading::split_at))]
fn split(reader: &mut Reader<'_>, alloc: Global, brackets: u32) -> Result<Split, ParseFault>
    ensures { Gives dealing_of result reader.new (split_at brackets reader.old) }
{
    reader.word(b"split")?;
    let word = reader.name()?;
    let split = split_after(reader, alloc, brackets, word)?;
    closed(reader, split, Symbol::Semicolon)
}

// `join roundrobin ..;`
#[tactic(auto, unfolding(crate::specs::Reading::join_at))]
fn join(reader: &mut Reader<'_>, alloc: Global, brackets: u32) -> Result<RoundRobin, ParseFault>
    ensures { Gives weights_of result reader.new (join_at brackets reader.old) }
{
    reader.word(b"join")?;
    reader.word(b"roundrobin")?;
    let join = weights(reader, alloc, brackets)?;
    closed(reader, join, Symbol::Semicolon)
}

// The splitter, what is added, and the joiner.
#[tactic(auto, unfolding(crate::specs::Reading::in_both_at))]
fn in_both(reader: &mut Reader<'_>, alloc: Global, brackets: u32) -> Result<SplitJoin, ParseFault>
    ensures { Gives split_join_of result reader.new (in_both_at brackets reader.old) }
{
    let split = split(reader, alloc, brackets)?;
    let adds = adds(reader, alloc, brackets)?;
    let join = join(reader, alloc, brackets)?;
    Ok(SplitJoin { split, adds, join })
}

/// `{` the splitter, what is added, and the joiner `}`
#[tactic(auto, unfolding(crate::specs::Reading::both_at))]
pub(crate) fn both(
    reader: &mut Reader<'_>,
    alloc: Global,
    brackets: u32,
) -> Result<SplitJoin, ParseFault>
    ensures { Gives split_join_of result reader.new (both_at brackets reader.old) }
{
    let inner = reader.opens(Symbol::OpenBrace, brackets)?;
    let all = in_both(reader, alloc, inner)?;
    closed(reader, all, Symbol::CloseBrace)
}
