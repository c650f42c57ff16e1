// Steps judged: no variable of a loop has a name that is known, the names of constants are known, and each stream that is added is
// declared above, with as many parameters as there are arguments.
ghost use Rattle.std.specs.Prelude.{◌≡◌, ℕ, not, false, ◌&&◌, [], ◌∷◌, ◌++◌, length, OnOk};
ghost use Rattle.streamit_text.specs.Tree.{expression};
ghost use Rattle.params_text.specs.Params.{is_one_of};
ghost use Rattle.params_text.specs.Program.{expressions, step_of, steps_of};
ghost use Rattle.params_model.specs.Judged.{Above, judged_then, are_known, all_known, has_arity, is_there, step_judged, steps_judged};
ghost use Rattle.params_model.specs.declared.fault.Fault.TheVariants.{UnknownName, NameTwice, Arity};
ghost use Rattle.params_model.specs.Making.{demand};
ghost use Rattle.streamit_model.specs.Meaning.{look};
ghost use Rattle.params_build.specs.Above.{CountsParameters};
ghost use Rattle.params_build.specs.Judging.{JudgesAlways, Judges};

use crate::RefusedUnit;
use crate::above::StreamsAbove;
use crate::constant::{all_known, are_known};
use crate::names::KnownNames;
use params_model::Fault;
use params_text::{Step, Steps};
use river_base::{Name, NoMemory};
use streamit_text::Expr;

// The arguments of an `add`, and how many there are.
fn given(
    above: &StreamsAbove,
    known: &KnownNames,
    name: &Name,
    args: &Vec<Expr>,
) -> Result<(), Fault>
    ensures { (k : ℕ) (us : Above) → CountsParameters above.now us
        → JudgesAlways k result (judged_then (demand (all_known known.now (expressions args.now)) k UnknownName)
        (demand (has_arity (look us name.now) (length args.now.items)) k Arity)) }
{
    if !all_known(known, args) {
        return Err(Fault::UnknownName);
    }
    above.takes(name, args.len())
}

// An `add`.
fn add(above: &StreamsAbove, known: &KnownNames, name: &Name, args: &Vec<Expr>) -> Result<(), Fault>
    ensures { (k : ℕ) (us : Above) → CountsParameters above.now us
        → JudgesAlways k result (judged_then (demand (is_there (look us name.now)) k UnknownName)
        (judged_then (demand (all_known known.now (expressions args.now)) k UnknownName)
        (demand (has_arity (look us name.now) (length args.now.items)) k Arity))) }
{
    above.has(name)?;
    given(above, known, name, args)
}

// The head of a loop.
fn head(known: &KnownNames, name: &Name, low: &Expr, high: &Expr) -> Result<(), Fault>
    ensures judged { (k : ℕ)
        → JudgesAlways k result (judged_then (demand (not (is_one_of known.now name.now)) k NameTwice)
        (demand (are_known known.now (expression low.now) && are_known known.now (expression high.now)) k UnknownName)) }
    ensures new { OnOk result (is_one_of known.now name.now ≡ false) }
{
    if known.has(name) {
        return Err(Fault::NameTwice);
    }
    if are_known(known, low) && are_known(known, high) {
        Ok(())
    } else {
        Err(Fault::UnknownName)
    }
}

// One name more is known.
fn more(known: &mut KnownNames, name: Name) -> Result<(), NoMemory>
    requires { is_one_of known.old name ≡ false }
    ensures { OnOk result (known.new ≡ known.old ++ name ∷ []) }
{
    known.add(name)?;
    Ok(())
}

// A step, with the names that are known there, which it leaves as they are.
#[cycle(judged)]
#[tactic(auto, using(params_text::proofs::StepTrees::steps))]
fn step(above: &StreamsAbove, known: &mut KnownNames, one: &Step) -> Result<(), RefusedUnit>
    ensures judged { (k : ℕ) (us : Above) → CountsParameters above.now us → Judges k result (step_judged k us known.old (step_of one.now)) }
    ensures kept { OnOk result (known.new ≡ known.old) }
{
    match one {
        Step::Add { name, args } => {
            add(above, known, name, args)?;
            Ok(())
        }
        Step::Loop {
            name,
            low,
            high,
            steps: body,
            ..
        } => {
            head(known, name, low, high)?;
            turn(above, known, name, body)
        }
    }
}

// The steps of a loop with this variable.
#[cycle(judged)]
fn turn(
    above: &StreamsAbove,
    known: &mut KnownNames,
    name: &Name,
    body: &Steps,
) -> Result<(), RefusedUnit>
    requires { is_one_of known.old name.now ≡ false }
    ensures judged { (k : ℕ) (us : Above) → CountsParameters above.now us
        → Judges k result (steps_judged k us (known.old ++ name.now ∷ []) (steps_of body.now)) }
    ensures kept { OnOk result (known.new ≡ known.old) }
{
    let count = known.len();
    more(known, *name)?;
    steps(above, known, body)?;
    known.truncate(count);
    Ok(())
}

/// Steps, one after another, with the names that are known there, which they leave as they are.
#[cycle(judged)]
pub(crate) fn steps(
    above: &StreamsAbove,
    known: &mut KnownNames,
    all: &Steps,
) -> Result<(), RefusedUnit>
    ensures judged { (k : ℕ) (us : Above) → CountsParameters above.now us → Judges k result (steps_judged k us known.old (steps_of all.now)) }
    ensures kept { OnOk result (known.new ≡ known.old) }
{
    'items: for each in all.items.as_slice() {
        match step(above, known, each) {
            Ok(()) => {}
            Err(why) => return Err(why),
        }
    }
    Ok(())
}
