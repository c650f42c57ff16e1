// The numbers of a kernel that are above a limit.
ghost use Rattle.std.specs.Prelude.{◌≡◌, [], ◌∷◌, ◌++◌};
ghost use Rattle.work_code.specs.Steps.{step, steps, code_body};
ghost use Rattle.kern_rows.specs.Forms.{filter_form, run_form, optional_run};
ghost use Rattle.river_kernels.specs.Kern.{kern_of};
ghost use Rattle.river_kernels.specs.Limits.{told, either, first_above, size_once, size, weight_sum, nesting};
ghost use Rattle.river_kernels.specs.Limits.{body_numbers, rate_numbers, run_numbers, first_numbers, filter_numbers, weight_numbers, window_numbers, part_numbers};

use kern_bags::Window;
use kern_rows::{Filter, First};
use river_base::{Numbers, count_of};
use river_kernels::{Kernel, Limit};
use work_code::{Code, Stmt, Stmts};

/// The first number in the parts of a kernel that is above the most; 2^128 - 1 stands for what is greater. `Nesting`
/// has a call of its own.
#[tactic(auto, using(crate::proofs::LimitLemmas::joins))]
pub fn first_above(kernel: &Kernel, limit: Limit, most: u64) -> Option<u128>
    ensures { result ≡ first_above most (part_numbers limit (kern_of kernel.now)) }
{
    match kernel {
        Kernel::Code(code) => body_above(&code.code, limit, most),
        Kernel::Filter(filter) => filter_above(filter, limit, most),
        Kernel::Deal(weights) => weights_above(weights, limit, most),
        Kernel::Collect(weights) => weights_above(weights, limit, most),
        Kernel::Packed(inner) => first_above(inner, limit, most),
        Kernel::Window(window) => latest_above(*window, limit, most),
        Kernel::Fused { first, second, .. } => {
            let number = first_above(first, limit, most);
            either(number, first_above(second, limit, most))
        }
        _ => None,
    }
}

/// How deep kernels stand in one another: 1 for a kernel that has none inside. 2^128 - 1 stands for what is greater.
pub fn nesting(kernel: &Kernel) -> u128
    ensures { result ≡ told (nesting (kern_of kernel.now)) }
{
    match kernel {
        Kernel::Packed(inner) => 1u128.saturating_add(nesting(inner)),
        Kernel::Fused { first, second, .. } => {
            let first = nesting(first);
            1u128.saturating_add(first.max(nesting(second)))
        }
        _ => 1,
    }
}

// The first number, or where there is none the second.
fn either(first: Option<u128>, second: Option<u128>) -> Option<u128>
    ensures { result ≡ either first second }
{
    match first {
        Some(number) => Some(number),
        None => second,
    }
}

/// The number, where it is above the most.
pub fn one_above(number: u128, most: u64) -> Option<u128>
    ensures { result ≡ first_above most (number ∷ []) }
{
    if (most as u128) < number {
        Some(number)
    } else {
        None
    }
}

/// The first of two numbers that is above the most.
pub fn two_above(first: u128, second: u128, most: u64) -> Option<u128>
    ensures { result ≡ first_above most (first ∷ second ∷ []) }
{
    if (most as u128) < first {
        Some(first)
    } else {
        one_above(second, most)
    }
}

/// The statements or slots of a body, where they are above the most; of other limits none is.
#[tactic(auto, using(crate::proofs::LimitLemmas::tellings))]
pub fn body_above(code: &Code, limit: Limit, most: u64) -> Option<u128>
    ensures { result ≡ first_above most (body_numbers limit (code_body code.now)) }
{
    match limit {
        Limit::Statements => one_above(size(code.body.stmts()), most),
        Limit::Slots => one_above(code.slots as u128, most),
        _ => None,
    }
}

// The first number of a filter that is above the most: first those of its first run, where it has one of its own.
#[tactic(auto, using(crate::proofs::LimitLemmas::joins))]
fn filter_above(filter: &Filter, limit: Limit, most: u64) -> Option<u128>
    ensures { result ≡ first_above most (filter_numbers limit (filter_form filter.now)) }
{
    let number = first_run_above(&filter.first, limit, most);
    either(number, usual_above(filter, limit, most))
}

#[tactic(auto, using(crate::proofs::LimitLemmas::joins))]
fn usual_above(filter: &Filter, limit: Limit, most: u64) -> Option<u128>
    ensures { result ≡ first_above most (body_numbers limit (code_body filter.now.code) ++ rate_numbers limit (filter_form filter.now)) }
{
    let number = body_above(&filter.code, limit, most);
    either(number, rate_above(filter, limit, most))
}

#[tactic(auto, using(crate::proofs::LimitLemmas::joins))]
fn first_run_above(first: &Option<First>, limit: Limit, most: u64) -> Option<u128>
    ensures { result ≡ first_above most (first_numbers limit (optional_run first.now)) }
{
    match first {
        None => None,
        Some(run) => {
            let number = body_above(&run.code, limit, most);
            either(number, run_rate_above(run, limit, most))
        }
    }
}

fn run_rate_above(run: &First, limit: Limit, most: u64) -> Option<u128>
    ensures { result ≡ first_above most (run_numbers limit (run_form run.now)) }
{
    match limit {
        Limit::Rates => first_of_three(run.peek as u128, run.pop as u128, run.push as u128, most),
        _ => None,
    }
}

// The first rate of a filter that is above the most.
fn rate_above(filter: &Filter, limit: Limit, most: u64) -> Option<u128>
    ensures { result ≡ first_above most (rate_numbers limit (filter_form filter.now)) }
{
    match limit {
        Limit::Rates => first_of_three(
            filter.peek as u128,
            filter.pop as u128,
            filter.push as u128,
            most,
        ),
        _ => None,
    }
}

// The first of three numbers that is above the most.
fn first_of_three(first: u128, second: u128, third: u128, most: u64) -> Option<u128>
    ensures { result ≡ first_above most (first ∷ second ∷ third ∷ []) }
{
    if (most as u128) < first {
        Some(first)
    } else {
        two_above(second, third, most)
    }
}

// The sum of the weights, where it is above the most.
#[tactic(auto, using(crate::proofs::LimitLemmas::tellings))]
fn weights_above(weights: &Numbers, limit: Limit, most: u64) -> Option<u128>
    ensures { result ≡ first_above most (weight_numbers limit weights.now) }
{
    match limit {
        Limit::Weights => one_above(weight_sum(weights), most),
        _ => None,
    }
}

// The rows of a window of the latest rows, where they are above the most.
fn latest_above(window: Window, limit: Limit, most: u64) -> Option<u128>
    ensures { result ≡ first_above most (window_numbers limit window) }
{
    match (limit, window) {
        (Limit::Latest, Window::Latest(rows)) => one_above(rows as u128, most),
        _ => None,
    }
}

// The sum of the weights, of which those below 0 count as 0.
#[tactic(auto, using(crate::proofs::LimitLemmas::sums))]
fn weight_sum(weights: &Numbers) -> u128
    ensures { result ≡ told (weight_sum weights.now) }
{
    let mut sum: u128 = 0;
    for weight in weights.as_slice() {
        sum = sum.saturating_add(count_of(*weight) as u128);
    }
    sum
}

// How many statements these are.
#[cycle(size)]
#[tactic(auto, using(crate::proofs::LimitLemmas::sizes))]
fn size(all: &Stmts) -> u128
    ensures { result ≡ told (size (steps all.now)) }
{
    let mut number: u128 = 0;
    for statement in all.as_slice() {
        number = number.saturating_add(size_once(statement));
    }
    number
}

// How many statements a statement is, with those inside.
#[cycle(size)]
fn size_once(statement: &Stmt) -> u128
    ensures { result ≡ told (size_once (step statement.now)) }
{
    match statement {
        Stmt::Set { .. } => 1,
        Stmt::Push { .. } => 1,
        Stmt::If { yes, no, .. } => {
            let first = size(yes);
            1u128.saturating_add(first.saturating_add(size(no)))
        }
    }
}
