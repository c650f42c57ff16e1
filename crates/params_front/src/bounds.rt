// The bounds of loops of steps, each valued once where nothing in it changes: for an instance where no
// variable of a loop stands in it, and otherwise when the outermost loop is entered that is further
// in than all whose variables stand in it.
ghost use Rattle.std.specs.Prelude.{◌≡◌, ◌∷◌, ℕ, IfOk, OnOk, pos, slice_get};
ghost use Rattle.std.specs.Option.{option_copied};
ghost use Rattle.streamit_text.specs.Tree.{expression};
ghost use Rattle.params_text.specs.Program.{step_of, steps_of};
ghost use Rattle.params_model.specs.Constants.{HasFitConstants, HaveFitConstants};
ghost use Rattle.params_model.specs.Environment.{Environment, value};
ghost use Rattle.params_model.specs.Laws.{HasValues};
ghost use Rattle.streamit_model.specs.Meaning.{look};
ghost use Rattle.params_front.specs.declared.bounds.Bounds.{out-Bounds};
ghost use Rattle.params_front.specs.Valued.{is_none, is_free, low_noted, high_noted, inner_noted, IsOver, IsFixed, IsValued, AreValued, IsNoted, AreNoted};

use params_print::{Bindings, value};
use params_text::{Step, Steps};
use river_base::{Name, NoMemory};
use std::alloc::Global;
use streamit_text::Expr;

/// What is known of a step before it is met: of a loop its bounds, each where it was valued, and
/// what is known of its steps; of an `add` nothing.
#[derive(Drop)]
pub(crate) struct Bounds {
    pub low: Option<i64>,
    pub high: Option<i64>,
    pub inner: Vec<Bounds>,
    /// Whether a bound of the loop, or of one within, was not valued.
    pub is_open: bool,
}

/// Whether a bound of these loops, or of one within, was not valued.
pub(crate) fn are_open(all: &[Bounds]) -> bool {
    all.iter().any(|each| each.is_open)
}

// Nothing is known of an `add`.
fn of_add(alloc: Global) -> Bounds {
    Bounds {
        low: None,
        high: None,
        inner: Vec::new(alloc),
        is_open: false,
    }
}

// What is known of a loop.
fn of_loop(low: Option<i64>, high: Option<i64>, inner: Vec<Bounds>) -> Bounds
    ensures low { (out-Bounds result).low ≡ low }
    ensures high { (out-Bounds result).high ≡ high }
    ensures inner { (out-Bounds result).inner.items ≡ inner.items }
{
    let is_open = low.is_none() || high.is_none() || are_open(inner.as_slice());
    Bounds {
        low,
        high,
        inner,
        is_open,
    }
}

// What was known of the step at a place, if anything.
fn note_at<'a>(noted: &'a [Bounds], place: usize) -> Option<&'a Bounds>
    ensures { option_copied result ≡ slice_get noted.now place }
{
    noted.get(place)
}

// What was known of a lower bound.
fn low_of(noted: Option<&Bounds>) -> Option<i64>
    ensures { result ≡ low_noted (option_copied noted.entry) }
{
    match noted {
        Some(before) => before.low,
        None => None,
    }
}

// What was known of an upper bound.
fn high_of(noted: Option<&Bounds>) -> Option<i64>
    ensures { result ≡ high_noted (option_copied noted.entry) }
{
    match noted {
        Some(before) => before.high,
        None => None,
    }
}

// What was known of the steps of a loop.
fn inner_of<'a>(noted: Option<&'a Bounds>) -> &'a [Bounds]
    ensures { result.now ≡ inner_noted (option_copied noted.entry) }
{
    match noted {
        Some(before) => before.inner.as_slice(),
        None => &[],
    }
}

// Whether a name is none of these variables.
fn is_other(vars: &Bindings, name: &Name) -> bool
    ensures { result ≡ is_none (look vars.now name.now) }
{
    match vars.get(name) {
        Some(_) => false,
        None => true,
    }
}

// Whether none of these variables stands in a constant.
#[tactic(auto, using(crate::proofs::Valued::trees))]
fn is_free(vars: &Bindings, c: &Expr) -> bool
    ensures { result ≡ is_free vars.now (expression c.now) }
{
    match c {
        Expr::Number(_) | Expr::Pop | Expr::Peek(_) => true,
        Expr::Name(name) => is_other(vars, name),
        Expr::Neg(inner) | Expr::Not(inner) => is_free(vars, inner),
        Expr::Bin { left, right, .. } => is_free(vars, left) && is_free(vars, right),
    }
}

// The value of a bound, where it was valued or none of these variables stands in it.
fn fixed(known: &Bindings, vars: &Bindings, c: &Expr, noted: Option<i64>) -> Option<i64>
    requires { HasValues (expression c.now) }
    ensures { ((env : Environment) → IsOver vars.now known.now env → IsFixed noted (value env (expression c.now)))
        → (env : Environment) → IsOver vars.now known.now env → IsFixed result (value env (expression c.now)) }
{
    if noted.is_some() {
        return noted;
    }
    if is_free(vars, c) {
        Some(value(known, c))
    } else {
        None
    }
}

// What is known of a step in loops with these variables, where so much was known before.
#[cycle(fixed)]
fn of_step(
    alloc: Global,
    known: &Bindings,
    vars: &mut Bindings,
    step: &Step,
    noted: Option<&Bounds>,
) -> Result<Bounds, NoMemory>
    requires { HasFitConstants (step_of step.now) }
    ensures valued { IfOk result (λ b. ((env : Environment) → IsOver vars.old known.now env → IsNoted env (step_of step.now) (option_copied noted.entry))
        → (env : Environment) → IsOver vars.old known.now env → IsValued env (step_of step.now) b) }
    ensures same { OnOk result (vars.new ≡ vars.old) }
{
    match step {
        Step::Add { .. } => Ok(of_add(alloc)),
        Step::Loop {
            name,
            low,
            high,
            steps,
            ..
        } => {
            let low = fixed(known, vars, low, low_of(noted));
            let high = fixed(known, vars, high, high_of(noted));
            let inner = within(alloc, known, vars, *name, steps, inner_of(noted))?;
            Ok(of_loop(low, high, inner))
        }
    }
}

// What is known of the steps of a loop with one variable more.
#[cycle(fixed)]
fn within(
    alloc: Global,
    known: &Bindings,
    vars: &mut Bindings,
    name: Name,
    steps: &Steps,
    noted: &[Bounds],
) -> Result<Vec<Bounds>, NoMemory>
    requires { HaveFitConstants (steps_of steps.now) }
    ensures valued { IfOk result (λ all. ((v : ℕ) (env : Environment) → IsOver vars.old known.now env
        → AreNoted ((name, pos v) ∷ env) (steps_of steps.now) noted.now)
        → (v : ℕ) (env : Environment) → IsOver vars.old known.now env → AreValued ((name, pos v) ∷ env) (steps_of steps.now) all.items) }
    ensures same { OnOk result (vars.new ≡ vars.old) }
{
    vars.push(name, 0)?;
    let all = of_steps(alloc, known, vars, steps, noted)?;
    vars.pop();
    Ok(all)
}

// What is known of steps, one after another, in loops with these variables.
#[cycle(fixed)]
fn of_steps(
    alloc: Global,
    known: &Bindings,
    vars: &mut Bindings,
    steps: &Steps,
    noted: &[Bounds],
) -> Result<Vec<Bounds>, NoMemory>
    requires { HaveFitConstants (steps_of steps.now) }
    ensures valued { IfOk result (λ all. ((env : Environment) → IsOver vars.old known.now env → AreNoted env (steps_of steps.now) noted.now)
        → (env : Environment) → IsOver vars.old known.now env → AreValued env (steps_of steps.now) all.items) }
    ensures same { OnOk result (vars.new ≡ vars.old) }
{
    let mut all = Vec::new(alloc);
    let mut place = 0;
    'items: for each in steps.items.as_slice() {
        let one = of_step(alloc, known, vars, each, note_at(noted, place))?;
        all.push(one)?;
        place += 1;
    }
    Ok(all)
}

/// What is known of the steps of a body under the values of its parameters: the bounds in which no
/// variable of a loop stands.
pub(crate) fn fixed_bounds(
    alloc: Global,
    known: &Bindings,
    steps: &Steps,
) -> Result<Vec<Bounds>, NoMemory>
    requires { HaveFitConstants (steps_of steps.now) }
    ensures { IfOk result (λ all. AreValued known.now (steps_of steps.now) all.items) }
{
    let mut vars = Bindings::new(alloc);
    of_steps(alloc, known, &mut vars, steps, &[])
}

/// What is known of the steps of a loop with this variable, which is entered under these values,
/// where so much was known before: besides the bounds in which neither the variable nor one of a
/// loop further in stands.
pub(crate) fn entered_bounds(
    alloc: Global,
    known: &Bindings,
    name: Name,
    steps: &Steps,
    noted: &[Bounds],
) -> Result<Vec<Bounds>, NoMemory>
    requires fit { HaveFitConstants (steps_of steps.now) }
    requires noted { (v : ℕ) → AreValued ((name, pos v) ∷ known.now) (steps_of steps.now) noted.now }
    ensures { IfOk result (λ all. (v : ℕ) → AreValued ((name, pos v) ∷ known.now) (steps_of steps.now) all.items) }
{
    let mut vars = Bindings::new(alloc);
    within(alloc, known, &mut vars, name, steps, noted)
}
