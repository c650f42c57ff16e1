// The bodies of instances: their children, and then their own text.
ghost use Rattle.std.specs.Prelude.{◌≡◌, ◌-◌, [], ◌∷◌, ℕ, pos, suc, length, OnOk};
ghost use Rattle.params_text.specs.Program.{unit_forms, body_of, unit_form, filter_of, steps_of, step_of, expressions, Add, AFilter, APipeline};
ghost use Rattle.params_text.specs.View.{split_join_of};
ghost use Rattle.streamit_model.specs.Meaning.{numbers_from};
ghost use Rattle.params_model.specs.Laws.{AreFit};
ghost use Rattle.params_model.specs.Making.{Made, Adding, made_once, steps_made, children_made, turns_made, make};
ghost use Rattle.params_front.specs.Valued.{IsValued, AreValued};
ghost use Rattle.params_front.specs.Standing.{Stands, MakesOne, MakesMore, MakesAll, adding, source_at, bodied, turn_steps, turn_made};
ghost use Rattle.params_model.specs.Constants.{AreFitUnits, IsFitUnit, IsFitFilter, HasFitConstants, HaveFitConstants};

use crate::Making;
use crate::bounds::{Bounds, are_open, entered_bounds, fixed_bounds};
use crate::find::{find, size_at};
use crate::making::{demand, refuse};
use crate::ranges::{is_ranged_filter, is_ranged_round, is_ranged_split};
use crate::span::{Span, span_between, value_or, values};
use params_build::Refused;
use params_model::{Fault, Refusal};
use params_print::{Bindings, Instance};
use params_text::{ParamBody, ParamFilter, ParamSplitJoin, Step, Steps, Unit};
use river_base::{Listed, Name};
use std::alloc::Global;
use streamit_text::Expr;

/// What an instance sees: the units above its own and the bytes of all units; and how deep it lies,
/// or, in its body, how deep its children lie.
#[derive(Clone, Copy)]
pub(crate) struct Seen<'a> {
    pub units: &'a [Unit],
    pub sizes: &'a [usize],
    pub depth: u32,
}

/// A body that is being made: the values that are known, and the children so far.
#[derive(Drop)]
pub(crate) struct Scope {
    pub known: Bindings,
    pub children: Listed<Instance>,
}

// The turns of a loop of steps, and its variable.
#[derive(Clone, Copy)]
struct Turns {
    name: Name,
    span: Span,
}

impl Making {
    /// An instance of the stream of this name under these values.
    #[cycle(make)]
    fn instance(
        &mut self,
        alloc: Global,
        seen: Seen<'_>,
        stream: Name,
        values: &[i64],
    ) -> Result<Instance, Refused>
        requires { AreFitUnits (unit_forms seen.units.now) }
        ensures { (m : Made) → Stands self.old m
            → MakesOne result self.new (adding seen.entry.units.now seen.entry.sizes.now seen.entry.depth stream values.now m) }
    {
        let units = seen.units;
        let Some(i) = find(units, &stream) else {
            return Err(Refused::Program(Refusal {
                unit: 0,
                fault: Fault::UnknownName,
            }));
        };
        let unit = &units[i];
        let known = Bindings::bound(alloc, unit.params.as_slice(), values)?;
        let above = Seen {
            units: &units[..i],
            ..seen
        };
        self.make(alloc, above, unit, known)
    }

    /// An instance of this unit under these values.
    #[cycle(make)]
    pub fn make(
        &mut self,
        alloc: Global,
        seen: Seen<'_>,
        unit: &Unit,
        known: Bindings,
    ) -> Result<Instance, Refused>
        requires above { AreFitUnits (unit_forms seen.units.now) }
        requires unit { IsFitUnit (body_of unit.now.body) }
        ensures { (m : Made) → Stands self.old m
            → MakesOne result self.new (make (adding seen.entry.units.now seen.entry.sizes.now (suc seen.entry.depth))
            (source_at (length seen.entry.units.now) seen.entry.sizes.now (unit_form unit.now)) seen.entry.depth known m) }
    {
        let size = size_at(seen.sizes, seen.units.len());
        self.begin(seen.units, size, seen.depth)?;
        let inner = Seen {
            depth: seen.depth + 1,
            ..seen
        };
        let mut scope = Scope {
            known,
            children: Listed::new(alloc),
        };
        self.body(alloc, inner, &mut scope, unit.name, &unit.body)
    }

    // The body of an instance of this stream, and its unit.
    #[cycle(make)]
    fn body(
        &mut self,
        alloc: Global,
        seen: Seen<'_>,
        scope: &mut Scope,
        name: Name,
        body: &ParamBody,
    ) -> Result<Instance, Refused>
        requires above { AreFitUnits (unit_forms seen.units.now) }
        requires body { IsFitUnit (body_of body.now) }
        requires none { scope.old.children ≡ [] }
        ensures { (m : Made) → Stands self.old m
            → MakesOne result self.new (bodied (adding seen.entry.units.now seen.entry.sizes.now seen.entry.depth)
            (suc (length seen.entry.units.now)) name scope.old.known (body_of body.now) m) }
    {
        match body {
            ParamBody::Filter(tree) => self.filter(seen.units, &scope.known, name, tree),
            ParamBody::Pipeline(steps) => self.pipeline(alloc, seen, scope, name, steps),
            ParamBody::SplitJoin(all) => self.split_join(alloc, seen, scope, name, all),
        }
    }

    // A filter.
    fn filter(
        &mut self,
        above: &[Unit],
        known: &Bindings,
        name: Name,
        tree: &ParamFilter,
    ) -> Result<Instance, Refused>
        requires { IsFitFilter (filter_of tree.now) }
        ensures { (m : Made) (add : Adding) → Stands self.old m
            → MakesOne result self.new (bodied add (suc (length above.now)) name known.now (AFilter (filter_of tree.now)) m) }
    {
        demand(above, is_ranged_filter(known, tree), Fault::Range)?;
        let instance = self.write_filter(above, name, known, tree)?;
        Ok(instance)
    }

    // The children of a pipeline, and its unit.
    #[cycle(make)]
    fn pipeline(
        &mut self,
        alloc: Global,
        seen: Seen<'_>,
        scope: &mut Scope,
        name: Name,
        steps: &Steps,
    ) -> Result<Instance, Refused>
        requires above { AreFitUnits (unit_forms seen.units.now) }
        requires steps { HaveFitConstants (steps_of steps.now) }
        requires none { scope.old.children ≡ [] }
        ensures { (m : Made) → Stands self.old m
            → MakesOne result self.new (bodied (adding seen.entry.units.now seen.entry.sizes.now seen.entry.depth)
            (suc (length seen.entry.units.now)) name scope.old.known (APipeline (steps_of steps.now)) m) }
    {
        self.children(alloc, seen, scope, steps)?;
        let instance = self.write_pipeline(seen.units, name, scope.children.as_slice())?;
        Ok(instance)
    }

    // The children of a split-join, and its unit.
    #[cycle(make)]
    fn split_join(
        &mut self,
        alloc: Global,
        seen: Seen<'_>,
        scope: &mut Scope,
        name: Name,
        all: &ParamSplitJoin,
    ) -> Result<Instance, Refused>
        requires above { AreFitUnits (unit_forms seen.units.now) }
        requires body { IsFitUnit (split_join_of all.now) }
        requires none { scope.old.children ≡ [] }
        ensures { (m : Made) → Stands self.old m
            → MakesOne result self.new (bodied (adding seen.entry.units.now seen.entry.sizes.now seen.entry.depth)
            (suc (length seen.entry.units.now)) name scope.old.known (split_join_of all.now) m) }
    {
        let above = seen.units;
        demand(
            above,
            is_ranged_split(&scope.known, &all.split),
            Fault::Range,
        )?;
        self.children(alloc, seen, scope, &all.steps)?;
        demand(
            above,
            is_ranged_round(&scope.known, &all.join),
            Fault::Range,
        )?;
        let instance = self.write_split_join(above, name, scope, all)?;
        Ok(instance)
    }

    // The children of a body, of which there are some.
    #[cycle(make)]
    fn children(
        &mut self,
        alloc: Global,
        seen: Seen<'_>,
        scope: &mut Scope,
        steps: &Steps,
    ) -> Result<(), Refused>
        requires above { AreFitUnits (unit_forms seen.units.now) }
        requires steps { HaveFitConstants (steps_of steps.now) }
        requires none { scope.old.children ≡ [] }
        ensures { (m : Made) → Stands self.old m
            → MakesAll result scope.old scope.new self.new (children_made (adding seen.entry.units.now seen.entry.sizes.now seen.entry.depth)
            (suc (length seen.entry.units.now)) scope.old.known (steps_of steps.now) m) }
    {
        let bounds = fixed_bounds(alloc, &scope.known, steps)?;
        self.some_children(alloc, seen, scope, bounds.as_slice(), steps)
    }

    // The same where this is known of the steps.
    #[cycle(make)]
    fn some_children(
        &mut self,
        alloc: Global,
        seen: Seen<'_>,
        scope: &mut Scope,
        bounds: &[Bounds],
        steps: &Steps,
    ) -> Result<(), Refused>
        requires above { AreFitUnits (unit_forms seen.units.now) }
        requires steps { HaveFitConstants (steps_of steps.now) }
        requires bounds { AreValued scope.old.known (steps_of steps.now) bounds.now }
        requires none { scope.old.children ≡ [] }
        ensures { (m : Made) → Stands self.old m
            → MakesAll result scope.old scope.new self.new (children_made (adding seen.entry.units.now seen.entry.sizes.now seen.entry.depth)
            (suc (length seen.entry.units.now)) scope.old.known (steps_of steps.now) m) }
    {
        self.steps(alloc, seen, scope, bounds, steps)?;
        if scope.children.is_empty() {
            return Err(refuse(seen.units, Fault::Empty));
        }
        Ok(())
    }

    // Steps, one after another.
    #[cycle(make)]
    fn steps(
        &mut self,
        alloc: Global,
        seen: Seen<'_>,
        scope: &mut Scope,
        bounds: &[Bounds],
        steps: &Steps,
    ) -> Result<(), Refused>
        requires above { AreFitUnits (unit_forms seen.units.now) }
        requires steps { HaveFitConstants (steps_of steps.now) }
        requires bounds { AreValued scope.old.known (steps_of steps.now) bounds.now }
        ensures made { (m : Made) → Stands self.old m
            → MakesMore result scope.old scope.new self.new (steps_made (adding seen.entry.units.now seen.entry.sizes.now seen.entry.depth)
            (suc (length seen.entry.units.now)) scope.old.known (steps_of steps.now) m) }
        ensures same { OnOk result (scope.new.known ≡ scope.old.known) }
    {
        let mut place = 0;
        'items: for each in steps.items.as_slice() {
            match self.step(alloc, seen, scope, &bounds[place], each) {
                Ok(()) => place += 1,
                Err(why) => return Err(why),
            }
        }
        Ok(())
    }

    // A step.
    #[cycle(make)]
    fn step(
        &mut self,
        alloc: Global,
        seen: Seen<'_>,
        scope: &mut Scope,
        bounds: &Bounds,
        step: &Step,
    ) -> Result<(), Refused>
        requires above { AreFitUnits (unit_forms seen.units.now) }
        requires step { HasFitConstants (step_of step.now) }
        requires bounds { IsValued scope.old.known (step_of step.now) bounds.now }
        ensures made { (m : Made) → Stands self.old m
            → MakesMore result scope.old scope.new self.new (made_once (adding seen.entry.units.now seen.entry.sizes.now seen.entry.depth)
            (suc (length seen.entry.units.now)) scope.old.known (step_of step.now) m) }
        ensures same { OnOk result (scope.new.known ≡ scope.old.known) }
    {
        match step {
            Step::Add { name, args } => self.add(alloc, seen, scope, *name, args),
            Step::Loop {
                name,
                low,
                until,
                high,
                steps,
            } => {
                let low = value_or(&scope.known, bounds.low, low);
                let high = value_or(&scope.known, bounds.high, high);
                match span_between(low, *until, high) {
                    Some(span) => {
                        let turns = Turns { name: *name, span };
                        self.enter(alloc, seen, scope, turns, bounds.inner.as_slice(), steps)
                    }
                    None => Err(refuse(seen.units, Fault::Range)),
                }
            }
        }
    }

    // The instance that an `add` makes.
    #[cycle(make)]
    fn add(
        &mut self,
        alloc: Global,
        seen: Seen<'_>,
        scope: &mut Scope,
        stream: Name,
        args: &Vec<Expr>,
    ) -> Result<(), Refused>
        requires above { AreFitUnits (unit_forms seen.units.now) }
        requires args { AreFit (expressions args.now) }
        ensures made { (m : Made) → Stands self.old m
            → MakesMore result scope.old scope.new self.new (made_once (adding seen.entry.units.now seen.entry.sizes.now seen.entry.depth)
            (suc (length seen.entry.units.now)) scope.old.known (Add stream (expressions args.now)) m) }
        ensures same { OnOk result (scope.new.known ≡ scope.old.known) }
    {
        let values = values(alloc, &scope.known, args)?;
        let child = self.instance(alloc, seen, stream, values.as_slice())?;
        scope.children.push(child)?;
        Ok(())
    }

    // Steps for each turn of a loop that is entered. Where it has several turns, a bound of a loop
    // within is valued before the first, unless the loop's variable or one further in stands in it.
    #[cycle(make)]
    fn enter(
        &mut self,
        alloc: Global,
        seen: Seen<'_>,
        scope: &mut Scope,
        turns: Turns,
        bounds: &[Bounds],
        steps: &Steps,
    ) -> Result<(), Refused>
        requires above { AreFitUnits (unit_forms seen.units.now) }
        requires steps { HaveFitConstants (steps_of steps.now) }
        requires bounds { (v : ℕ) → AreValued ((turns.name, pos v) ∷ scope.old.known) (steps_of steps.now) bounds.now }
        ensures made { (m : Made) → Stands self.old m
            → MakesMore result scope.old scope.new self.new (turns_made (suc (length seen.entry.units.now))
            (turn_steps (adding seen.entry.units.now seen.entry.sizes.now seen.entry.depth)
            (suc (length seen.entry.units.now)) scope.old.known turns.name (steps_of steps.now))
            (numbers_from turns.span.low (turns.span.end - turns.span.low)) m) }
        ensures same { OnOk result (scope.new.known ≡ scope.old.known) }
    {
        if turns.span.is_short() || !are_open(bounds) {
            return self.turns(alloc, seen, scope, turns, bounds, steps);
        }
        let all = entered_bounds(alloc, &scope.known, turns.name, steps, bounds)?;
        self.turns(alloc, seen, scope, turns, all.as_slice(), steps)
    }

    // Steps for each turn of a loop.
    #[cycle(make)]
    fn turns(
        &mut self,
        alloc: Global,
        seen: Seen<'_>,
        scope: &mut Scope,
        turns: Turns,
        bounds: &[Bounds],
        steps: &Steps,
    ) -> Result<(), Refused>
        requires above { AreFitUnits (unit_forms seen.units.now) }
        requires steps { HaveFitConstants (steps_of steps.now) }
        requires bounds { (v : ℕ) → AreValued ((turns.name, pos v) ∷ scope.old.known) (steps_of steps.now) bounds.now }
        ensures made { (m : Made) → Stands self.old m
            → MakesMore result scope.old scope.new self.new (turns_made (suc (length seen.entry.units.now))
            (turn_steps (adding seen.entry.units.now seen.entry.sizes.now seen.entry.depth)
            (suc (length seen.entry.units.now)) scope.old.known turns.name (steps_of steps.now))
            (numbers_from turns.span.low (turns.span.end - turns.span.low)) m) }
        ensures same { OnOk result (scope.new.known ≡ scope.old.known) }
    {
        'range: for each in turns.span.low..turns.span.end {
            match self.turn(alloc, seen, scope, turns.name, each, bounds, steps) {
                Ok(()) => {}
                Err(why) => return Err(why),
            }
        }
        Ok(())
    }

    // Steps for one value of a loop's variable.
    #[cycle(make)]
    fn turn(
        &mut self,
        alloc: Global,
        seen: Seen<'_>,
        scope: &mut Scope,
        name: Name,
        value: u32,
        bounds: &[Bounds],
        steps: &Steps,
    ) -> Result<(), Refused>
        requires above { AreFitUnits (unit_forms seen.units.now) }
        requires steps { HaveFitConstants (steps_of steps.now) }
        requires bounds { AreValued ((name, pos value) ∷ scope.old.known) (steps_of steps.now) bounds.now }
        ensures made { (m : Made) → Stands self.old m
            → MakesMore result scope.old scope.new self.new (turn_made (suc (length seen.entry.units.now))
            (turn_steps (adding seen.entry.units.now seen.entry.sizes.now seen.entry.depth)
            (suc (length seen.entry.units.now)) scope.old.known name (steps_of steps.now)) value m) }
        ensures same { OnOk result (scope.new.known ≡ scope.old.known) }
    {
        self.begin_turn(seen.units)?;
        scope.known.push(name, i64::from(value))?;
        self.steps(alloc, seen, scope, bounds, steps)?;
        scope.known.pop();
        Ok(())
    }
}
