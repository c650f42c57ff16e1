// Units judged: the name of the stream, its parameters, and what is declared.
ghost use Rattle.std.specs.Prelude.{◌≡◌, ℕ, [], OnOk};
ghost use Rattle.params_text.specs.Program.{body_of, dealing_of, unit_form, rounds_of, steps_of};
ghost use Rattle.params_model.specs.Judged.{Above, judged_then, all_known_option, body_judged, dealing_judged, new_names, steps_judged, unit_judged};
ghost use Rattle.params_model.specs.declared.fault.Fault.TheVariants.{UnknownName};
ghost use Rattle.params_model.specs.Making.{demand};
ghost use Rattle.params_build.specs.Above.{CountsParameters};
ghost use Rattle.params_build.specs.Judging.{JudgesAlways, Judges};

use crate::RefusedUnit;
use crate::above::StreamsAbove;
use crate::constant::all_known_option;
use crate::filter::filter;
use crate::names::KnownNames;
use crate::step::steps;
use params_model::Fault;
use params_text::{ParamBody, ParamSplit, ParamSplitJoin, Rounds, Unit};
use river_base::Name;
use std::alloc::Global;

// The parameters, none of which has the name of one before it; they are known then.
fn new_names(known: &mut KnownNames, names: &[Name]) -> Result<(), RefusedUnit>
    requires { known.old ≡ [] }
    ensures judged { (k : ℕ) → Judges k result (new_names k [] names.now) }
    ensures known { OnOk result (known.new ≡ names.now) }
{
    'names: for each in names {
        if !known.add(*each)? {
            return Err(RefusedUnit::Fault(Fault::NameTwice));
        }
    }
    Ok(())
}

// The weights in the brackets of `roundrobin`.
fn weights(params: &KnownNames, rounds: &Rounds) -> Result<(), Fault>
    ensures { (k : ℕ) → JudgesAlways k result (demand (all_known_option params.now (rounds_of rounds.now)) k UnknownName) }
{
    if all_known_option(params, rounds) {
        Ok(())
    } else {
        Err(Fault::UnknownName)
    }
}

// The splitter.
fn dealing(params: &KnownNames, split: &ParamSplit) -> Result<(), Fault>
    ensures { (k : ℕ) → JudgesAlways k result (dealing_judged k params.now (dealing_of split.now)) }
{
    match split {
        ParamSplit::Duplicate => Ok(()),
        ParamSplit::RoundRobin(rounds) => weights(params, rounds),
    }
}

// The steps of a split-join and its joiner.
fn joined(
    above: &StreamsAbove,
    params: &mut KnownNames,
    all: &ParamSplitJoin,
) -> Result<(), RefusedUnit>
    ensures { (k : ℕ) (us : Above) → CountsParameters above.now us
        → Judges k result (judged_then (steps_judged k us params.old (steps_of all.now.steps))
        (demand (all_known_option params.old (rounds_of all.now.join)) k UnknownName)) }
{
    steps(above, params, &all.steps)?;
    weights(params, &all.join)?;
    Ok(())
}

// A split-join.
fn split_join(
    above: &StreamsAbove,
    params: &mut KnownNames,
    all: &ParamSplitJoin,
) -> Result<(), RefusedUnit>
    ensures { (k : ℕ) (us : Above) → CountsParameters above.now us
        → Judges k result (judged_then (dealing_judged k params.old (dealing_of all.now.split))
        (judged_then (steps_judged k us params.old (steps_of all.now.steps)) (demand (all_known_option params.old (rounds_of all.now.join)) k UnknownName))) }
{
    dealing(params, &all.split)?;
    joined(above, params, all)
}

// What is declared.
fn body(above: &StreamsAbove, params: &mut KnownNames, body: &ParamBody) -> Result<(), RefusedUnit>
    ensures { (k : ℕ) (us : Above) → CountsParameters above.now us → Judges k result (body_judged k us params.old (body_of body.now)) }
{
    match body {
        ParamBody::Filter(tree) => {
            filter(params, tree)?;
            Ok(())
        }
        ParamBody::Pipeline(all) => steps(above, params, all),
        ParamBody::SplitJoin(all) => split_join(above, params, all),
    }
}

// The parameters, and what is declared.
fn inner(alloc: Global, above: &StreamsAbove, unit: &Unit) -> Result<(), RefusedUnit>
    ensures { (k : ℕ) (us : Above) → CountsParameters above.now us
        → Judges k result (judged_then (new_names k [] unit.now.params.items) (body_judged k us unit.now.params.items (body_of unit.now.body))) }
{
    let mut known = KnownNames::new(alloc);
    new_names(&mut known, unit.params.as_slice())?;
    body(above, &mut known, &unit.body)
}

/// A unit, below these streams.
pub(crate) fn unit(alloc: Global, above: &StreamsAbove, unit: &Unit) -> Result<(), RefusedUnit>
    ensures { (k : ℕ) (us : Above) → CountsParameters above.now us → Judges k result (unit_judged k us (unit_form unit.now)) }
{
    above.is_new(&unit.name)?;
    inner(alloc, above, unit)
}
