// Filters judged: no field, local or variable of a loop has a parameter's name, and no parameter is
// assigned.
ghost use Rattle.std.specs.Prelude.{◌≡◌, ℕ, not, ◌&&◌};
ghost use Rattle.text_blocks.specs.Parts.{optional};
ghost use Rattle.streamit_text.specs.Tree.{expression, statement, block, optional_block};
ghost use Rattle.params_text.specs.Program.{work_of, filter_of};
ghost use Rattle.params_model.specs.Judged.{judged_then, known_option, other_names, statement_judged, block_judged, optional_judged, work_judged, prework_judged};
ghost use Rattle.params_model.specs.Judged.{filter_judged};
ghost use Rattle.params_text.specs.Params.{is_one_of};
ghost use Rattle.params_model.specs.declared.fault.Fault.TheVariants.{NameTwice};
ghost use Rattle.params_model.specs.Making.{demand};
ghost use Rattle.params_build.specs.Judging.{JudgesAlways};

use crate::constant::known_option;
use crate::names::KnownNames;
use params_model::Fault;
use params_text::{ParamFilter, ParamRates, ParamWork};
use river_base::Name;
use streamit_text::{Block, Statement};

// The fields.
fn other_names(params: &KnownNames, names: &[Name]) -> Result<(), Fault>
    ensures { (k : ℕ) → JudgesAlways k result (other_names k params.now names.now) }
{
    'names: for each in names {
        if params.has(each) {
            return Err(Fault::NameTwice);
        }
    }
    Ok(())
}

// A name that is declared.
fn declared(params: &KnownNames, name: &Name) -> Result<(), Fault>
    ensures { (k : ℕ) → JudgesAlways k result (demand (not (is_one_of params.now name.now)) k NameTwice) }
{
    if params.has(name) {
        Err(Fault::NameTwice)
    } else {
        Ok(())
    }
}

// A statement.
#[cycle(judged)]
#[tactic(auto, using(streamit_text::proofs::Trees::trees))]
fn statement(params: &KnownNames, one: &Statement) -> Result<(), Fault>
    ensures { (k : ℕ) → JudgesAlways k result (statement_judged k params.now (statement one.now)) }
{
    match one {
        Statement::Declare { name, .. } => declared(params, name),
        Statement::Assign { name, .. } => {
            if params.has(name) {
                Err(Fault::NotConstant)
            } else {
                Ok(())
            }
        }
        Statement::Push(_) | Statement::Pop => Ok(()),
        Statement::If { yes, no, .. } => {
            block(params, yes)?;
            optional_block(params, no)
        }
        Statement::For { name, body, .. } => {
            declared(params, name)?;
            block(params, body)
        }
    }
}

// A block.
#[cycle(judged)]
fn block(params: &KnownNames, all: &Block) -> Result<(), Fault>
    ensures { (k : ℕ) → JudgesAlways k result (block_judged k params.now (block all.now)) }
{
    'items: for each in all.items.as_slice() {
        match statement(params, each) {
            Ok(()) => {}
            Err(fault) => return Err(fault),
        }
    }
    Ok(())
}

// A block that may be left out.
#[cycle(judged)]
fn optional_block(params: &KnownNames, all: &Option<Block>) -> Result<(), Fault>
    ensures { (k : ℕ) → JudgesAlways k result (optional_judged k params.now (optional_block all.now)) }
{
    match all {
        Some(all) => block(params, all),
        None => Ok(()),
    }
}

// The rates.
fn rates(params: &KnownNames, rates: &ParamRates) -> bool
    ensures { result
        ≡ (known_option params.now (optional expression rates.now.push)
        && (known_option params.now (optional expression rates.now.pop) && known_option params.now (optional expression rates.now.peek))) }
{
    known_option(params, &rates.push)
        && known_option(params, &rates.pop)
        && known_option(params, &rates.peek)
}

// `work` or `prework`.
fn work(params: &KnownNames, work: &ParamWork) -> Result<(), Fault>
    ensures { (k : ℕ) → JudgesAlways k result (work_judged k params.now (work_of work.now)) }
{
    if !rates(params, &work.rates) {
        return Err(Fault::UnknownName);
    }
    block(params, &work.block)
}

// `prework`, which may be left out.
fn prework(params: &KnownNames, prework: &Option<ParamWork>) -> Result<(), Fault>
    ensures { (k : ℕ) → JudgesAlways k result (prework_judged k params.now (optional work_of prework.now)) }
{
    match prework {
        Some(one) => work(params, one),
        None => Ok(()),
    }
}

// `prework`, which may be left out, and `work`.
fn works(params: &KnownNames, tree: &ParamFilter) -> Result<(), Fault>
    ensures { (k : ℕ) → JudgesAlways k result (judged_then (prework_judged k params.now (optional work_of tree.now.prework))
        (work_judged k params.now (work_of tree.now.work))) }
{
    prework(params, &tree.prework)?;
    work(params, &tree.work)
}

// What stands behind the fields.
fn blocks(params: &KnownNames, tree: &ParamFilter) -> Result<(), Fault>
    ensures { (k : ℕ)
        → JudgesAlways k result (judged_then (optional_judged k params.now (optional_block tree.now.init))
        (judged_then (prework_judged k params.now (optional work_of tree.now.prework)) (work_judged k params.now (work_of tree.now.work)))) }
{
    optional_block(params, &tree.init)?;
    works(params, tree)
}

/// A filter with these parameters.
pub(crate) fn filter(params: &KnownNames, tree: &ParamFilter) -> Result<(), Fault>
    ensures { (k : ℕ) → JudgesAlways k result (filter_judged k params.now (filter_of tree.now)) }
{
    other_names(params, tree.fields.as_slice())?;
    blocks(params, tree)
}
