// Filters read.
ghost use Rattle.std.specs.Prelude.{◌≡◌, codes};
ghost use Rattle.text_forms.specs.Gives.{Gives};
ghost use Rattle.text_forms.specs.Parse.{after_word};
ghost use Rattle.streamit_text.specs.Grammar.{with_rate};
ghost use Rattle.text_blocks.specs.Parts.{optional};
ghost use Rattle.streamit_text.specs.Program.{work_tree, filter_tree};
ghost use Rattle.streamit_text.specs.Tree.{block, optional_block};
ghost use Rattle.streamit_text.specs.View.{rate_of, rates_of, option_rates, works_tree};
ghost use Rattle.streamit_text.specs.Reading.{field_at, fields_at, rate_after, rate_at, rates_at, still_at, init_at, work_at, prework_at, works_at, in_filter_at, filter_at};

use crate::names::name;
use crate::statement::block;
use crate::still::stay;
use crate::{Block, FilterTree, Rates, WorkTree};
use river_base::Name;
use std::alloc::Global;
use text_forms::{ParseFault, Reader, closed, is};
use text_tokens::Symbol;

// `int NAME;`
#[tactic(auto, unfolding(crate::specs::Reading::field_at))]
fn field(reader: &mut Reader<'_>) -> Result<Name, ParseFault>
    ensures { Gives (λ name. name) result reader.new (field_at reader.old) }
{
    reader.word(b"int")?;
    let name = name(reader)?;
    closed(reader, name, Symbol::Semicolon)
}

/// The fields of a filter: `int NAME;` as often as it comes.
#[tactic(auto, unfolding(crate::specs::Reading::fields_at), using(crate::proofs::FieldSteps::fields))]
pub fn fields(reader: &mut Reader<'_>, alloc: Global) -> Result<Vec<Name>, ParseFault>
    ensures { Gives (λ names. names.items) result reader.new (fields_at reader.old) }
{
    let mut names = Vec::new(alloc);
    'items: while reader.is_at_word(b"int") {
        names.push(field(reader)?)?;
    }
    Ok(names)
}

// A rate that is written.
#[derive(Clone, Copy)]
enum Rate {
    Push(u32),
    Pop(u32),
    Peek(u32),
}

// What stands behind the word of a rate.
#[tactic(auto, unfolding(crate::specs::Reading::rate_after))]
fn rate_after(reader: &mut Reader<'_>, word: &[u8]) -> Result<Rate, ParseFault>
    ensures { Gives rate_of result reader.new (rate_after word.now reader.old) }
{
    if is(word, b"push") {
        return Ok(Rate::Push(reader.count()?));
    }
    if is(word, b"pop") {
        return Ok(Rate::Pop(reader.count()?));
    }
    if is(word, b"peek") {
        return Ok(Rate::Peek(reader.count()?));
    }
    Err(ParseFault::Syntax)
}

// A word and a number.
#[tactic(auto, unfolding(crate::specs::Reading::rate_at))]
fn one_rate(reader: &mut Reader<'_>) -> Result<Rate, ParseFault>
    ensures { Gives rate_of result reader.new (rate_at reader.old) }
{
    let word = reader.name()?;
    rate_after(reader, word)
}

// The rates with one more, which may not be among them yet.
fn with_rate(rates: Rates, rate: Rate) -> Option<Rates>
    ensures { option_rates result ≡ with_rate (rates_of rates) (rate_of rate) }
{
    match rate {
        Rate::Push(n) if rates.push.is_none() => Some(Rates {
            push: Some(n),
            ..rates
        }),
        Rate::Pop(n) if rates.pop.is_none() => Some(Rates {
            pop: Some(n),
            ..rates
        }),
        Rate::Peek(n) if rates.peek.is_none() => Some(Rates {
            peek: Some(n),
            ..rates
        }),
        _ => None,
    }
}

// The rates, each of them once at most.
#[tactic(auto, using(crate::proofs::RateSteps::rates))]
fn rates(reader: &mut Reader<'_>) -> Result<Rates, ParseFault>
    ensures { Gives rates_of result reader.new (rates_at reader.old) }
{
    let mut rates = Rates {
        push: None,
        pop: None,
        peek: None,
    };
    'items: while !reader.is_at(Symbol::OpenBrace) {
        let rate = one_rate(reader)?;
        match with_rate(rates, rate) {
            Some(more) => rates = more,
            None => return Err(ParseFault::Syntax),
        }
    }
    Ok(rates)
}

// A block without `push`, `pop` and `peek`.
#[tactic(auto, unfolding(crate::specs::Reading::still_at))]
fn still(reader: &mut Reader<'_>, alloc: Global, brackets: u32) -> Result<Block, ParseFault>
    ensures { Gives block result reader.new (still_at brackets reader.old) }
{
    let all = block(reader, alloc, brackets)?;
    if stay(&all) {
        Ok(all)
    } else {
        Err(ParseFault::Syntax)
    }
}

// `init` and its block, or nothing.
#[tactic(auto, unfolding(crate::specs::Reading::init_at))]
fn init(reader: &mut Reader<'_>, alloc: Global, brackets: u32) -> Result<Option<Block>, ParseFault>
    ensures { Gives optional_block result reader.new (init_at brackets reader.old) }
{
    if !reader.is_at_word(b"init") {
        return Ok(None);
    }
    reader.skip();
    Ok(Some(still(reader, alloc, brackets)?))
}

// Rates and a block.
#[tactic(auto, unfolding(crate::specs::Reading::work_at), using(crate::proofs::RateSteps::filters))]
fn work(reader: &mut Reader<'_>, alloc: Global, brackets: u32) -> Result<WorkTree, ParseFault>
    ensures { Gives work_tree result reader.new (work_at brackets reader.old) }
{
    let rates = rates(reader)?;
    let block = block(reader, alloc, brackets)?;
    Ok(WorkTree { rates, block })
}

// `prework`, its rates and its block, or nothing.
#[tactic(auto, unfolding(crate::specs::Reading::prework_at))]
fn prework(
    reader: &mut Reader<'_>,
    alloc: Global,
    brackets: u32,
) -> Result<Option<WorkTree>, ParseFault>
    ensures { Gives (optional work_tree) result reader.new (prework_at brackets reader.old) }
{
    if !reader.is_at_word(b"prework") {
        return Ok(None);
    }
    reader.skip();
    Ok(Some(work(reader, alloc, brackets)?))
}

// `work`, its rates and its block.
fn main_work(reader: &mut Reader<'_>, alloc: Global, brackets: u32) -> Result<WorkTree, ParseFault>
    ensures { Gives work_tree result reader.new (after_word (codes "work") (work_at brackets) reader.old) }
{
    reader.word(b"work")?;
    work(reader, alloc, brackets)
}

// `prework`, which may be left out, and `work`.
#[tactic(auto, unfolding(crate::specs::Reading::works_at))]
fn works(
    reader: &mut Reader<'_>,
    alloc: Global,
    brackets: u32,
) -> Result<(Option<WorkTree>, WorkTree), ParseFault>
    ensures { Gives works_tree result reader.new (works_at brackets reader.old) }
{
    let prework = prework(reader, alloc, brackets)?;
    let work = main_work(reader, alloc, brackets)?;
    Ok((prework, work))
}

// What stands between the braces of a filter.
#[tactic(auto, unfolding(crate::specs::Reading::in_filter_at), using(crate::proofs::RateSteps::filters))]
fn in_filter(
    reader: &mut Reader<'_>,
    alloc: Global,
    brackets: u32,
) -> Result<FilterTree, ParseFault>
    ensures { Gives filter_tree result reader.new (in_filter_at brackets reader.old) }
{
    let fields = fields(reader, alloc)?;
    let init = init(reader, alloc, brackets)?;
    let (prework, work) = works(reader, alloc, brackets)?;
    Ok(FilterTree {
        fields,
        init,
        prework,
        work,
    })
}

/// `{` what a filter has `}`
#[tactic(auto, unfolding(crate::specs::Reading::filter_at))]
pub fn filter(
    reader: &mut Reader<'_>,
    alloc: Global,
    brackets: u32,
) -> Result<FilterTree, ParseFault>
    ensures { Gives filter_tree result reader.new (filter_at brackets reader.old) }
{
    let inner = reader.opens(Symbol::OpenBrace, brackets)?;
    let filter = in_filter(reader, alloc, inner)?;
    closed(reader, filter, Symbol::CloseBrace)
}
