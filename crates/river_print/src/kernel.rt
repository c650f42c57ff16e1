// Prints kernels.
ghost use Rattle.std.specs.Prelude.{◌≡◌, ◌++◌, [], ◌∷◌, codes, OnOk};
ghost use Rattle.std.specs.Fmt.{decimal};
ghost use Rattle.work_code.specs.Term.{term, terms};
ghost use Rattle.kern_rows.specs.Forms.{code_form, filter_form, optional_run, run_form};
ghost use Rattle.work_code.specs.Steps.{steps};
ghost use Rattle.kern_bags.specs.declared.kernel.Window.TheVariants as window_kind;
ghost use Rattle.river_kernels.specs.Kern.{kern_of, select, project, fused};
ghost use Rattle.river_print.specs.Printed.{kernel_text, list_text, values_text, code_text, filter_text, first_text, firsts_text, rates_text, run_text, window_text, streamer_text};

use crate::items::{
    Style, begin_three, counted, in_brackets, next_number, numbers, two_in_brackets,
};
use crate::print::write_expr;
use crate::printing::{write_code, write_items};
use kern_bags::{Streamer, Window};
use kern_rows::{CodeKernel, Filter, First};
use river_base::{Bytes, NoMemory};
use river_kernels::Kernel;
use work_code::{Code, Expr, Exprs};

// Appends the text of a kernel; where there is no memory, maybe a part of it.
#[cycle(print_kernel)]
#[tactic(auto, using(crate::proofs::Joined::joins))]
fn print_kernel(kernel: &Kernel, to: &mut Bytes) -> Result<(), NoMemory>
    ensures { OnOk result (to.new ≡ to.old ++ kernel_text (kern_of kernel.now)) }
{
    match kernel {
        Kernel::Code(code) => print_code_kernel(code, to),
        Kernel::Filter(filter) => print_filter(filter, to),
        Kernel::Duplicate(ports) => counted(b"duplicate", *ports, to),
        Kernel::Deal(weights) => print_weights(b"deal", weights.as_slice(), to),
        Kernel::Collect(weights) => print_weights(b"collect", weights.as_slice(), to),
        Kernel::Packed(inner) => print_between(b"packed { ", inner, b" }", to),
        Kernel::Unpack(ports) => counted(b"unpack", *ports, to),
        Kernel::Window(window) => print_window(*window, to),
        Kernel::Select(cond) => print_select(cond.expr(), to),
        Kernel::Project(list) => print_project(list.exprs(), to),
        Kernel::Cross => to.extend(b"cross"),
        Kernel::Streamer(streamer) => print_streamer(*streamer, to),
        Kernel::Tally => to.extend(b"tally"),
        Kernel::Fused { first, second, at } => print_fused(first, second, *at, to),
    }
}

/// Appends the text of a kernel between two texts; where there is no memory, maybe a part of them.
#[cycle(print_kernel)]
#[tactic(auto, using(crate::proofs::Joined::joins))]
pub(crate) fn print_between(
    before: &[u8],
    kernel: &Kernel,
    after: &[u8],
    to: &mut Bytes,
) -> Result<(), NoMemory>
    ensures { OnOk result (to.new ≡ to.old ++ (before.now ++ (kernel_text (kern_of kernel.now) ++ after.now))) }
{
    to.extend(before)?;
    print_kernel(kernel, to)?;
    to.extend(after)
}

// The text of two kernels as one.
#[cycle(print_kernel)]
#[tactic(auto, using(crate::proofs::Joined::joins))]
fn print_fused(first: &Kernel, second: &Kernel, at: u32, to: &mut Bytes) -> Result<(), NoMemory>
    ensures { OnOk result (to.new ≡ to.old ++ kernel_text (fused (kern_of first.now) (kern_of second.now) at)) }
{
    begin_fused(at, to)?;
    print_kernel(first, to)?;
    print_between(b" } { ", second, b" }", to)
}

// A word and values in brackets.
#[tactic(auto, using(crate::proofs::Joined::joins))]
fn print_weights(word: &[u8], weights: &[i64], to: &mut Bytes) -> Result<(), NoMemory>
    ensures { OnOk result (to.new ≡ to.old ++ (word.now ++ values_text weights.now)) }
{
    to.extend(word)?;
    numbers(weights, Style::Value, to)
}

#[tactic(auto, using(crate::proofs::Joined::joins))]
fn print_select(cond: &Expr, to: &mut Bytes) -> Result<(), NoMemory>
    ensures { OnOk result (to.new ≡ to.old ++ kernel_text (select (term cond.now))) }
{
    to.extend(b"select(")?;
    write_expr(cond, to)?;
    to.extend(b")")
}

#[tactic(auto, using(crate::proofs::Joined::joins))]
fn print_project(list: &Exprs, to: &mut Bytes) -> Result<(), NoMemory>
    ensures { OnOk result (to.new ≡ to.old ++ kernel_text (project (terms list.now))) }
{
    to.extend(b"project(")?;
    write_items(list, to)?;
    to.extend(b")")
}

// What stands before the two kernels of a fused one.
#[tactic(auto, using(crate::proofs::Joined::joins))]
fn begin_fused(at: u32, to: &mut Bytes) -> Result<(), NoMemory>
    ensures { OnOk result (to.new ≡ to.old ++ (codes "fused" ++ (list_text (decimal at ∷ []) ++ codes " { "))) }
{
    to.extend(b"fused")?;
    in_brackets(at, to)?;
    to.extend(b" { ")
}

#[tactic(auto, using(crate::proofs::Joined::joins))]
fn print_code_kernel(kernel: &CodeKernel, to: &mut Bytes) -> Result<(), NoMemory>
    ensures { OnOk result (to.new ≡ to.old ++ code_text (code_form kernel.now)) }
{
    to.extend(b"code")?;
    two_in_brackets(kernel.code.inputs, kernel.code.slots, to)?;
    to.extend(b" ")?;
    numbers(kernel.outs.as_slice(), Style::Value, to)?;
    print_run(kernel.starts.as_slice(), &kernel.code, to)
}

#[tactic(auto, using(crate::proofs::Joined::joins))]
fn print_filter(filter: &Filter, to: &mut Bytes) -> Result<(), NoMemory>
    ensures { OnOk result (to.new ≡ to.old ++ filter_text (filter_form filter.now)) }
{
    to.extend(b"filter")?;
    print_rates(filter, to)?;
    print_run(filter.starts.as_slice(), &filter.code, to)?;
    print_firsts(&filter.first, to)
}

// The first run where it is another than the others.
fn print_firsts(first: &Option<First>, to: &mut Bytes) -> Result<(), NoMemory>
    ensures { OnOk result (to.new ≡ to.old ++ firsts_text (optional_run first.now)) }
{
    match first {
        Some(run) => print_first(run, to),
        None => Ok(()),
    }
}

// A space, the word `first`, the rates in brackets and the body.
#[tactic(auto, using(crate::proofs::Joined::joins))]
fn print_first(run: &First, to: &mut Bytes) -> Result<(), NoMemory>
    ensures { OnOk result (to.new ≡ to.old ++ first_text (run_form run.now)) }
{
    to.extend(b" first")?;
    print_first_rates(run, to)?;
    to.extend(b" ")?;
    write_code(&run.code, to)
}

// The rates of a first run, in brackets.
#[tactic(auto, using(crate::proofs::Joined::joins))]
fn print_first_rates(run: &First, to: &mut Bytes) -> Result<(), NoMemory>
    ensures { OnOk result (to.new ≡ to.old ++ list_text (decimal run.now.peek ∷ decimal run.now.pop ∷ decimal run.now.push ∷ [])) }
{
    begin_three(run.peek, run.pop, run.push, to)?;
    to.extend(b")")
}

// The starts and the body, each behind a space.
#[tactic(auto, using(crate::proofs::Joined::joins))]
fn print_run(kept: &[i64], code: &Code, to: &mut Bytes) -> Result<(), NoMemory>
    ensures { OnOk result (to.new ≡ to.old ++ run_text kept.now (steps code.now.body)) }
{
    to.extend(b" ")?;
    numbers(kept, Style::Start, to)?;
    to.extend(b" ")?;
    write_code(code, to)
}

// The rates of a filter and how many slots it has, in brackets.
#[tactic(auto, using(crate::proofs::Joined::joins))]
fn print_rates(filter: &Filter, to: &mut Bytes) -> Result<(), NoMemory>
    ensures { OnOk result (to.new ≡ to.old ++ rates_text (filter_form filter.now)) }
{
    begin_three(filter.peek, filter.pop, filter.push, to)?;
    next_number(filter.code.slots, to)?;
    to.extend(b")")
}

fn print_window(window: Window, to: &mut Bytes) -> Result<(), NoMemory>
    ensures { OnOk result (to.new ≡ to.old ++ window_text window) }
{
    match window {
        Window::Now => to.extend(b"now"),
        Window::Range(most) => print_range(most, to),
        Window::Unbounded => to.extend(b"unbounded"),
        Window::Latest(count) => counted(b"latest", count, to),
    }
}

#[tactic(auto, using(crate::proofs::Joined::joins))]
fn print_range(most: i64, to: &mut Bytes) -> Result<(), NoMemory>
    ensures { OnOk result (to.new ≡ to.old ++ window_text (window_kind.Range most)) }
{
    to.extend(b"range(")?;
    to.put_number(most)?;
    to.extend(b")")
}

fn print_streamer(streamer: Streamer, to: &mut Bytes) -> Result<(), NoMemory>
    ensures { OnOk result (to.new ≡ to.old ++ streamer_text streamer) }
{
    match streamer {
        Streamer::Istream => to.extend(b"istream"),
        Streamer::Dstream => to.extend(b"dstream"),
        Streamer::Rstream => to.extend(b"rstream"),
    }
}
