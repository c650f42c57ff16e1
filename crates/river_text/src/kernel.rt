// Kernels read.
ghost use Rattle.std.specs.Prelude.{◌≡◌};
ghost use Rattle.text_forms.specs.Gives.{Gives};
ghost use Rattle.kern_rows.specs.Forms.{optional_run};
ghost use Rattle.river_kernels.specs.Kern.{kern_of};
ghost use Rattle.text_blocks.specs.Parts.{optional};
ghost use Rattle.work_code.specs.Steps.{steps};
ghost use Rattle.river_text.specs.Kernels.{made_first};
ghost use Rattle.river_text.specs.ReadKernels.{code_at, first_at, filter_at, fused_at, stream_after, relation_after, bag_after, range_at, packed_after, ports_after, braced_at, kernel_at};

use crate::body::body;
use crate::number::{number, pair, rates, starts, triple, weights, widths};
use crate::term::{River, exprs};
use kern_bags::{Streamer, Window};
use kern_rows::{CodeKernel, Filter, First};
use river_kernels::Kernel;
use std::alloc::Global;
use text_blocks::round;
use text_forms::{ParseFault, Reader, closed, is};
use text_tokens::Symbol;
use work_code::{Body, Code, Formula, Formulas};

// What stands behind `code`.
#[tactic(auto, unfolding(crate::specs::ReadKernels::code_at))]
fn code(reader: &mut Reader<'_>, alloc: Global, brackets: u32) -> Result<Kernel, ParseFault>
    ensures { Gives kern_of result reader.new (code_at brackets reader.old) }
{
    let (inputs, slots) = pair(reader, brackets)?;
    let outs = widths(reader, alloc, brackets)?;
    let starts = starts(reader, alloc, brackets)?;
    let body = body(reader, alloc, brackets)?;
    let code = Code {
        inputs,
        slots,
        body,
    };
    Ok(Kernel::Code(CodeKernel { code, outs, starts }))
}

// `first`, the rates of the first run and its body, or nothing.
#[tactic(auto, unfolding(crate::specs::ReadKernels::first_at))]
fn first(
    reader: &mut Reader<'_>,
    alloc: Global,
    brackets: u32,
) -> Result<Option<((u32, u32, u32), Body)>, ParseFault>
    ensures { Gives (optional (λ run. ((run.0.0, (run.0.1, run.0.2)), steps run.1))) result reader.new (first_at brackets reader.old) }
{
    if !reader.is_at_word(b"first") {
        return Ok(None);
    }
    reader.skip();
    let rates = triple(reader, brackets)?;
    Ok(Some((rates, body(reader, alloc, brackets)?)))
}

// The first run of a filter with so many slots, of its rates and its body.
fn first_run(run: Option<((u32, u32, u32), Body)>, slots: u32) -> Option<First>
    ensures { optional_run result ≡ optional (made_first slots) (optional (λ run. ((run.0.0, (run.0.1, run.0.2)), steps run.1)) run) }
{
    let ((peek, pop, push), body) = run?;
    let code = Code {
        inputs: peek,
        slots,
        body,
    };
    Some(First {
        peek,
        pop,
        push,
        code,
    })
}

// What stands behind `filter`.
#[tactic(auto, unfolding(crate::specs::ReadKernels::filter_at))]
fn filter(reader: &mut Reader<'_>, alloc: Global, brackets: u32) -> Result<Kernel, ParseFault>
    ensures { Gives kern_of result reader.new (filter_at brackets reader.old) }
{
    let (peek, pop, push, slots) = rates(reader, brackets)?;
    let starts = starts(reader, alloc, brackets)?;
    let body = body(reader, alloc, brackets)?;
    let first = first_run(first(reader, alloc, brackets)?, slots);
    let code = Code {
        inputs: peek,
        slots,
        body,
    };
    Ok(Kernel::Filter(Filter {
        peek,
        pop,
        push,
        code,
        starts,
        first,
    }))
}

// What stands behind `range`.
#[tactic(auto, unfolding(crate::specs::ReadKernels::range_at))]
fn range(reader: &mut Reader<'_>, brackets: u32) -> Result<i64, ParseFault>
    ensures { Gives (λ value. value) result reader.new (range_at brackets reader.old) }
{
    reader.opens(Symbol::Open, brackets)?;
    let value = reader.value()?;
    closed(reader, value, Symbol::Close)
}

// What stands behind the word of a streamer or of a tally.
#[tactic(auto, unfolding(crate::specs::ReadKernels::stream_after))]
fn stream_after(reader: &mut Reader<'_>, word: &[u8]) -> Result<Kernel, ParseFault>
    ensures { Gives kern_of result reader.new (stream_after word.now reader.old) }
{
    if is(word, b"istream") {
        return Ok(Kernel::Streamer(Streamer::Istream));
    }
    if is(word, b"dstream") {
        return Ok(Kernel::Streamer(Streamer::Dstream));
    }
    if is(word, b"rstream") {
        return Ok(Kernel::Streamer(Streamer::Rstream));
    }
    if is(word, b"tally") {
        return Ok(Kernel::Tally);
    }
    Err(ParseFault::Syntax)
}

// That, or behind the word of a kernel on relations.
#[tactic(auto, unfolding(crate::specs::ReadKernels::relation_after))]
fn relation_after(
    reader: &mut Reader<'_>,
    alloc: Global,
    brackets: u32,
    word: &[u8],
) -> Result<Kernel, ParseFault>
    ensures { Gives kern_of result reader.new (relation_after brackets word.now reader.old) }
{
    if is(word, b"select") {
        let cond = round(&River, reader, alloc, brackets)?;
        return Ok(Kernel::Select(Formula::of(alloc, cond)?));
    }
    if is(word, b"project") {
        let list = exprs(reader, alloc, brackets)?;
        return Ok(Kernel::Project(Formulas::of(alloc, list)?));
    }
    if is(word, b"cross") {
        return Ok(Kernel::Cross);
    }
    stream_after(reader, word)
}

// That, or behind the word of a window.
#[tactic(auto, unfolding(crate::specs::ReadKernels::bag_after))]
fn bag_after(
    reader: &mut Reader<'_>,
    alloc: Global,
    brackets: u32,
    word: &[u8],
) -> Result<Kernel, ParseFault>
    ensures { Gives kern_of result reader.new (bag_after brackets word.now reader.old) }
{
    if is(word, b"now") {
        return Ok(Kernel::Window(Window::Now));
    }
    if is(word, b"range") {
        return Ok(Kernel::Window(Window::Range(range(reader, brackets)?)));
    }
    if is(word, b"unbounded") {
        return Ok(Kernel::Window(Window::Unbounded));
    }
    if is(word, b"latest") {
        return Ok(Kernel::Window(Window::Latest(number(reader, brackets)?)));
    }
    relation_after(reader, alloc, brackets, word)
}

// A kernel in braces, in a box.
#[cycle(kernel)]
fn boxed(reader: &mut Reader<'_>, alloc: Global, brackets: u32) -> Result<Box<Kernel>, ParseFault>
    ensures { Gives (λ boxed. kern_of boxed.value) result reader.new (braced_at brackets reader.old) }
{
    Ok(Box::new(alloc, braced(reader, alloc, brackets)?)?)
}

// What stands behind `fused`.
#[cycle(kernel)]
#[tactic(auto, unfolding(crate::specs::ReadKernels::fused_at))]
fn fused(reader: &mut Reader<'_>, alloc: Global, brackets: u32) -> Result<Kernel, ParseFault>
    ensures { Gives kern_of result reader.new (fused_at (braced_at brackets) brackets reader.old) }
{
    let at = number(reader, brackets)?;
    let first = boxed(reader, alloc, brackets)?;
    let second = boxed(reader, alloc, brackets)?;
    Ok(Kernel::Fused { first, second, at })
}

// What stands behind the word of a kernel of packs, of two kernels or on bags.
#[cycle(kernel)]
#[tactic(auto, unfolding(crate::specs::ReadKernels::packed_after))]
fn packed_after(
    reader: &mut Reader<'_>,
    alloc: Global,
    brackets: u32,
    word: &[u8],
) -> Result<Kernel, ParseFault>
    ensures { Gives kern_of result reader.new (packed_after (braced_at brackets) brackets word.now reader.old) }
{
    if is(word, b"packed") {
        return Ok(Kernel::Packed(boxed(reader, alloc, brackets)?));
    }
    if is(word, b"unpack") {
        return Ok(Kernel::Unpack(number(reader, brackets)?));
    }
    if is(word, b"fused") {
        return fused(reader, alloc, brackets);
    }
    bag_after(reader, alloc, brackets, word)
}

// That, or behind the word of a kernel that copies, deals or collects.
#[cycle(kernel)]
#[tactic(auto, unfolding(crate::specs::ReadKernels::ports_after))]
fn ports_after(
    reader: &mut Reader<'_>,
    alloc: Global,
    brackets: u32,
    word: &[u8],
) -> Result<Kernel, ParseFault>
    ensures { Gives kern_of result reader.new (ports_after (braced_at brackets) brackets word.now reader.old) }
{
    if is(word, b"duplicate") {
        return Ok(Kernel::Duplicate(number(reader, brackets)?));
    }
    if is(word, b"deal") {
        return Ok(Kernel::Deal(weights(reader, alloc, brackets)?));
    }
    if is(word, b"collect") {
        return Ok(Kernel::Collect(weights(reader, alloc, brackets)?));
    }
    packed_after(reader, alloc, brackets, word)
}

/// `{` kernel `}`, where so many more brackets may be open.
#[cycle(kernel)]
#[tactic(auto, using(crate::proofs::Braces::braces))]
pub(crate) fn braced(
    reader: &mut Reader<'_>,
    alloc: Global,
    brackets: u32,
) -> Result<Kernel, ParseFault>
    ensures { Gives kern_of result reader.new (braced_at brackets reader.old) }
{
    let inner = reader.opens(Symbol::OpenBrace, brackets)?;
    let kernel = kernel(reader, alloc, inner)?;
    closed(reader, kernel, Symbol::CloseBrace)
}

// A kernel, where `brackets` more brackets may be open.
#[cycle(kernel)]
#[tactic(auto, unfolding(crate::specs::ReadKernels::kernel_at, crate::specs::ReadKernels::kernel_after))]
fn kernel(reader: &mut Reader<'_>, alloc: Global, brackets: u32) -> Result<Kernel, ParseFault>
    ensures { Gives kern_of result reader.new (kernel_at brackets reader.old) }
{
    let word = reader.name()?;
    if is(word, b"code") {
        return code(reader, alloc, brackets);
    }
    if is(word, b"filter") {
        return filter(reader, alloc, brackets);
    }
    ports_after(reader, alloc, brackets, word)
}
