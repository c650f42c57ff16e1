// Filters read.
ghost use Rattle.std.specs.Prelude.{◌≡◌, Some, codes};
ghost use Rattle.text_blocks.specs.Parts.{optional};
ghost use Rattle.text_forms.specs.Gives.{Gives, Makes};
ghost use Rattle.text_forms.specs.Parse.{after_word};
ghost use Rattle.streamit_text.specs.Tree.{expression, option_expression, block, optional_block};
ghost use Rattle.params_text.specs.Grammar.{fresh, unwritten, with_rate};
ghost use Rattle.params_text.specs.Program.{work_of, filter_of};
ghost use Rattle.params_text.specs.Reading.{rate_after, rate_at, rates_at, statements_at, block_at, still_at, init_at, work_at, prework_at, works_at};
ghost use Rattle.params_text.specs.Reading.{in_filter_at, filter_at};
ghost use Rattle.params_text.specs.View.{rate_of, rates_of, both_works};

use crate::constant::constant;
use crate::low::low;
use crate::parameters::WithParameters;
use crate::{ParamFilter, ParamRates, ParamWork, Parameters};
use river_base::Name;
use std::alloc::Global;
use streamit_text::{Block, Expr, StreamitGrammar, fields, stay};
use text_forms::{ParseFault, Reader, closed, is};
use text_tokens::Symbol;

// A rate that is written.
#[derive(Drop)]
enum Rate {
    Push(Expr),
    Pop(Expr),
    Peek(Expr),
}

// What stands behind the word of a rate.
#[tactic(auto, unfolding(crate::specs::Reading::rate_after))]
fn rate_after(
    reader: &mut Reader<'_>,
    alloc: Global,
    brackets: u32,
    word: &[u8],
) -> Result<Rate, ParseFault>
    ensures { Gives rate_of result reader.new (rate_after brackets word.now reader.old) }
{
    if is(word, b"push") {
        return Ok(Rate::Push(constant(reader, alloc, brackets)?));
    }
    if is(word, b"pop") {
        return Ok(Rate::Pop(constant(reader, alloc, brackets)?));
    }
    if is(word, b"peek") {
        return Ok(Rate::Peek(constant(reader, alloc, brackets)?));
    }
    Err(ParseFault::Syntax)
}

// A word and a constant.
#[tactic(auto, unfolding(crate::specs::Reading::rate_at))]
fn one_rate(reader: &mut Reader<'_>, alloc: Global, brackets: u32) -> Result<Rate, ParseFault>
    ensures { Gives rate_of result reader.new (rate_at brackets reader.old) }
{
    let word = reader.name()?;
    rate_after(reader, alloc, brackets, word)
}

// A rate that is written now, and may not be written yet.
fn write(place: &mut Option<Expr>, new: Expr) -> Result<(), ParseFault>
    ensures { Makes (λ _. option_expression place.new) result (fresh (option_expression place.old) (Some (expression new))) }
{
    if place.is_some() {
        return Err(ParseFault::Syntax);
    }
    *place = Some(new);
    Ok(())
}

// One rate more, which may not be among them yet.
fn note(rates: &mut ParamRates, rate: Rate) -> Result<(), ParseFault>
    ensures { Makes (λ _. rates_of rates.new) result (with_rate (rates_of rates.old) (rate_of rate)) }
{
    match rate {
        Rate::Push(c) => write(&mut rates.push, c),
        Rate::Pop(c) => write(&mut rates.pop, c),
        Rate::Peek(c) => write(&mut rates.peek, c),
    }
}

// The rates, each of them once at most, where none is written yet.
#[tactic(auto, using(crate::proofs::RateSteps::rates))]
fn all_rates(
    reader: &mut Reader<'_>,
    alloc: Global,
    brackets: u32,
    rates: &mut ParamRates,
) -> Result<(), ParseFault>
    requires { rates_of rates.old ≡ unwritten }
    ensures { Gives (λ _. rates_of rates.new) result reader.new (rates_at brackets reader.old) }
{
    'items: while !reader.is_at(Symbol::OpenBrace) {
        let rate = one_rate(reader, alloc, brackets)?;
        note(rates, rate)?;
    }
    Ok(())
}

// The rates, each of them once at most.
fn rates(reader: &mut Reader<'_>, alloc: Global, brackets: u32) -> Result<ParamRates, ParseFault>
    ensures { Gives rates_of result reader.new (rates_at brackets reader.old) }
{
    let mut rates = ParamRates {
        push: None,
        pop: None,
        peek: None,
    };
    all_rates(reader, alloc, brackets, &mut rates)?;
    Ok(rates)
}

// The statements of a block, with these parameters.
#[tactic(auto, unfolding(crate::specs::Reading::statements_at))]
fn statements(
    reader: &mut Reader<'_>,
    alloc: Global,
    params: &Parameters,
    brackets: u32,
) -> Result<Block, ParseFault>
    ensures { Gives block result reader.new (statements_at params.now brackets reader.old) }
{
    let language = StreamitGrammar {
        leaves: WithParameters { names: params },
    };
    let all = text_blocks::block(&language, reader, alloc, 16, brackets);
    let StreamitGrammar { leaves: _ } = language;
    all
}

// A block whose expressions are at most 64 deep, where a parameter counts as 3 deep.
#[tactic(auto, unfolding(crate::specs::Reading::block_at))]
fn block(
    reader: &mut Reader<'_>,
    alloc: Global,
    params: &Parameters,
    brackets: u32,
) -> Result<Block, ParseFault>
    ensures { Gives block result reader.new (block_at params.now brackets reader.old) }
{
    let all = statements(reader, alloc, params, brackets)?;
    if low(params, &all) {
        Ok(all)
    } else {
        Err(ParseFault::Syntax)
    }
}

// A block without `push`, `pop` and `peek`.
#[tactic(auto, unfolding(crate::specs::Reading::still_at))]
fn still(
    reader: &mut Reader<'_>,
    alloc: Global,
    params: &Parameters,
    brackets: u32,
) -> Result<Block, ParseFault>
    ensures { Gives block result reader.new (still_at params.now brackets reader.old) }
{
    let all = block(reader, alloc, params, brackets)?;
    if stay(&all) {
        Ok(all)
    } else {
        Err(ParseFault::Syntax)
    }
}

// `init` and its block, or nothing.
#[tactic(auto, unfolding(crate::specs::Reading::init_at))]
fn init(
    reader: &mut Reader<'_>,
    alloc: Global,
    params: &Parameters,
    brackets: u32,
) -> Result<Option<Block>, ParseFault>
    ensures { Gives optional_block result reader.new (init_at params.now brackets reader.old) }
{
    if !reader.is_at_word(b"init") {
        return Ok(None);
    }
    reader.skip();
    Ok(Some(still(reader, alloc, params, brackets)?))
}

// Rates and a block.
#[tactic(auto, unfolding(crate::specs::Reading::work_at), using(crate::proofs::RateSteps::filters))]
fn work(
    reader: &mut Reader<'_>,
    alloc: Global,
    params: &Parameters,
    brackets: u32,
) -> Result<ParamWork, ParseFault>
    ensures { Gives work_of result reader.new (work_at params.now brackets reader.old) }
{
    let rates = rates(reader, alloc, brackets)?;
    let block = block(reader, alloc, params, brackets)?;
    Ok(ParamWork { rates, block })
}

// `prework`, its rates and its block, or nothing.
#[tactic(auto, unfolding(crate::specs::Reading::prework_at))]
fn prework(
    reader: &mut Reader<'_>,
    alloc: Global,
    params: &Parameters,
    brackets: u32,
) -> Result<Option<ParamWork>, ParseFault>
    ensures { Gives (optional work_of) result reader.new (prework_at params.now brackets reader.old) }
{
    if !reader.is_at_word(b"prework") {
        return Ok(None);
    }
    reader.skip();
    Ok(Some(work(reader, alloc, params, brackets)?))
}

// `work`, its rates and its block.
fn main_work(
    reader: &mut Reader<'_>,
    alloc: Global,
    params: &Parameters,
    brackets: u32,
) -> Result<ParamWork, ParseFault>
    ensures { Gives work_of result reader.new (after_word (codes "work") (work_at params.now brackets) reader.old) }
{
    reader.word(b"work")?;
    work(reader, alloc, params, brackets)
}

// `prework`, which may be left out, and `work`.
#[tactic(auto, unfolding(crate::specs::Reading::works_at))]
fn works(
    reader: &mut Reader<'_>,
    alloc: Global,
    params: &Parameters,
    brackets: u32,
) -> Result<(Option<ParamWork>, ParamWork), ParseFault>
    ensures { Gives both_works result reader.new (works_at params.now brackets reader.old) }
{
    let prework = prework(reader, alloc, params, brackets)?;
    let work = main_work(reader, alloc, params, brackets)?;
    Ok((prework, work))
}

// What stands between the braces of a filter.
#[tactic(auto, unfolding(crate::specs::Reading::in_filter_at), using(crate::proofs::RateSteps::filters))]
fn in_filter(
    reader: &mut Reader<'_>,
    alloc: Global,
    params: &Parameters,
    brackets: u32,
) -> Result<ParamFilter, ParseFault>
    ensures { Gives filter_of result reader.new (in_filter_at params.now brackets reader.old) }
{
    let fields = fields(reader, alloc)?;
    let init = init(reader, alloc, params, brackets)?;
    let (prework, work) = works(reader, alloc, params, brackets)?;
    Ok(ParamFilter {
        fields,
        init,
        prework,
        work,
    })
}

// `{` what a filter with these parameters has `}`
#[tactic(auto, unfolding(crate::specs::Reading::filter_at))]
fn braced(
    reader: &mut Reader<'_>,
    alloc: Global,
    params: &Parameters,
    brackets: u32,
) -> Result<ParamFilter, ParseFault>
    ensures { Gives filter_of result reader.new (filter_at params.now brackets reader.old) }
{
    let inner = reader.opens(Symbol::OpenBrace, brackets)?;
    let filter = in_filter(reader, alloc, params, inner)?;
    closed(reader, filter, Symbol::CloseBrace)
}

/// `{` what a filter with these parameters has `}`
pub(crate) fn filter(
    reader: &mut Reader<'_>,
    alloc: Global,
    params: &[Name],
    brackets: u32,
) -> Result<ParamFilter, ParseFault>
    ensures { Gives filter_of result reader.new (filter_at params.now brackets reader.old) }
{
    let params = Parameters::of(alloc, params)?;
    braced(reader, alloc, &params, brackets)
}
