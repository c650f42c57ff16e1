// Rates, weights and bounds: from 0 to 65,536.
ghost use Rattle.std.specs.Prelude.{◌≡◌};
ghost use Rattle.text_blocks.specs.Parts.{optional};
ghost use Rattle.streamit_text.specs.Tree.{expression};
ghost use Rattle.params_text.specs.Program.{expressions, rounds_of, dealing_of, work_of, filter_of};
ghost use Rattle.params_model.specs.Environment.{value};
ghost use Rattle.params_model.specs.Laws.{HasValues, AreFit};
ghost use Rattle.params_model.specs.Making.{is_ranged, are_ranged, is_ranged_option, are_ranged_option, is_ranged_dealing, is_ranged_work, is_ranged_prework, is_ranged_filter};
ghost use Rattle.params_model.specs.Constants.{IsFitOption, AreFitOption, IsFitDealing, IsFitWork, IsFitPrework, IsFitFilter};

use params_print::{Bindings, value};
use params_text::{ParamFilter, ParamSplit, ParamWork, Rounds};
use river_base::MOST_ITEMS;
use streamit_text::Expr;

// A rate, a weight or a bound.
fn is_ranged(known: &Bindings, c: &Expr) -> bool
    requires { HasValues (expression c.now) }
    ensures { result ≡ is_ranged (value known.now (expression c.now)) }
{
    let value = value(known, c);
    0 <= value && value <= MOST_ITEMS as i64
}

// Weights.
fn are_ranged(known: &Bindings, cs: &Vec<Expr>) -> bool
    requires { AreFit (expressions cs.now) }
    ensures { result ≡ are_ranged known.now (expressions cs.now) }
{
    'items: for each in cs.as_slice() {
        if !is_ranged(known, each) {
            return false;
        }
    }
    true
}

// A rate, where it is written.
fn is_ranged_option(known: &Bindings, c: &Option<Expr>) -> bool
    requires { IsFitOption (optional expression c.now) }
    ensures { result ≡ is_ranged_option known.now (optional expression c.now) }
{
    match c {
        Some(c) => is_ranged(known, c),
        None => true,
    }
}

/// Weights, where there are brackets.
pub(crate) fn is_ranged_round(known: &Bindings, rounds: &Rounds) -> bool
    requires { AreFitOption (rounds_of rounds.now) }
    ensures { result ≡ are_ranged_option known.now (rounds_of rounds.now) }
{
    match &rounds.weights {
        Some(cs) => are_ranged(known, cs),
        None => true,
    }
}

/// The weights of a splitter.
pub(crate) fn is_ranged_split(known: &Bindings, split: &ParamSplit) -> bool
    requires { IsFitDealing (dealing_of split.now) }
    ensures { result ≡ is_ranged_dealing known.now (dealing_of split.now) }
{
    match split {
        ParamSplit::Duplicate => true,
        ParamSplit::RoundRobin(rounds) => is_ranged_round(known, rounds),
    }
}

// The rates of `work` or `prework`.
fn is_ranged_work(known: &Bindings, work: &ParamWork) -> bool
    requires { IsFitWork (work_of work.now) }
    ensures { result ≡ is_ranged_work known.now (work_of work.now) }
{
    is_ranged_option(known, &work.rates.push)
        && is_ranged_option(known, &work.rates.pop)
        && is_ranged_option(known, &work.rates.peek)
}

// The rates of `prework`, where it is written.
fn is_ranged_prework(known: &Bindings, prework: &Option<ParamWork>) -> bool
    requires { IsFitPrework (optional work_of prework.now) }
    ensures { result ≡ is_ranged_prework known.now (optional work_of prework.now) }
{
    match prework {
        Some(work) => is_ranged_work(known, work),
        None => true,
    }
}

/// The rates of a filter.
pub(crate) fn is_ranged_filter(known: &Bindings, tree: &ParamFilter) -> bool
    requires { IsFitFilter (filter_of tree.now) }
    ensures { result ≡ is_ranged_filter known.now (filter_of tree.now) }
{
    is_ranged_prework(known, &tree.prework) && is_ranged_work(known, &tree.work)
}
