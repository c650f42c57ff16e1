// Which inputs fit a plan.
ghost use Rattle.std.specs.Prelude.{◌≡◌, ◌↔◌, ◌<◌, ◌<ℤ◌, IsTrue, All, Some, length};
ghost use Rattle.river_base.specs.Held.{HasType};
ghost use Rattle.brooklet_model.specs.Typed.{AreInputs};
ghost use Rattle.brooklet_model.specs.Fit.{Fit, instant_of, instants_in, Rises, HasInstants, AreInstants};
ghost use Rattle.brooklet_step.specs.Fit.{IsStream, IsStreamAt};

use brooklet_step::has_type;
use river_base::{Flat, FlatType, Item, Items, Listed, QueueType};
use river_plan::{Decls, Plan};

/// One list of items for each input of a plan.
pub type Inputs = Listed<Items>;

/// Whether there is one list for each input of the plan, each item has the input's type, and all inputs that are streams have
/// the same ascending instants.
pub fn fits(plan: &Plan, inputs: &Inputs) -> bool
    ensures { IsTrue result ↔ Fit plan.now inputs.now }
{
    let decls = &plan.raw().inputs;
    if !are_typed(decls, inputs) {
        return false;
    }
    match stream_place(decls) {
        Some(place) => {
            let first = inputs.at(place);
            rise(first) && all_follow(decls, inputs, first)
        }
        None => true,
    }
}

// Whether there is one list for each input, and each item has the input's type.
fn are_typed(decls: &Decls, inputs: &Inputs) -> bool
    ensures { IsTrue result ↔ AreInputs decls.now inputs.now }
{
    if decls.len() != inputs.len() {
        return false;
    }
    for place in 0..decls.len() {
        if !all_fit(&decls.at(place).kind, inputs.at(place)) {
            return false;
        }
    }
    true
}

fn all_fit(kind: &QueueType, items: &Items) -> bool
    ensures { IsTrue result ↔ All (HasType kind.now) items.now }
{
    items.as_slice().iter().all(|item| has_type(kind, item))
}

// The place of the first input that is a stream.
fn stream_place(decls: &Decls) -> Option<usize>
    ensures { IsStreamAt decls.now result }
{
    for place in 0..decls.len() {
        if is_stream(&decls.at(place).kind) {
            return Some(place);
        }
    }
    None
}

fn is_stream(kind: &QueueType) -> bool
    ensures { IsTrue result ↔ IsStream kind.now }
{
    match kind {
        QueueType::Flat(kind) => match kind {
            FlatType::Stream(_) => true,
            FlatType::Rows(_) | FlatType::Relation(_) => false,
        },
        QueueType::Pack(_) => false,
    }
}

// Whether each input that is a stream has these instants.
fn all_follow(decls: &Decls, inputs: &Inputs, first: &Items) -> bool
    requires { length inputs.now ≡ length decls.now }
    ensures { IsTrue result ↔ AreInstants decls.now (instants_in first.now) inputs.now }
{
    for place in 0..decls.len() {
        if !follow(&decls.at(place).kind, inputs.at(place), first) {
            return false;
        }
    }
    true
}

// Whether items of this type have these instants, where it is a stream.
fn follow(kind: &QueueType, items: &Items, first: &Items) -> bool
    ensures { IsTrue result ↔ HasInstants kind.now (instants_in first.now) items.now }
{
    match kind {
        QueueType::Flat(kind) => match kind {
            FlatType::Stream(_) => have_same_instants(items, first),
            FlatType::Rows(_) | FlatType::Relation(_) => true,
        },
        QueueType::Pack(_) => true,
    }
}

// Whether each item is later than the one before it.
fn rise(items: &Items) -> bool
    ensures { IsTrue result ↔ Rises (instants_in items.now) }
{
    for place in 1..items.len() {
        if !is_earlier(items.at(place - 1), items.at(place)) {
            return false;
        }
    }
    true
}

fn have_same_instants(a: &Items, b: &Items) -> bool
    ensures { IsTrue result ↔ (instants_in a.now ≡ instants_in b.now) }
{
    if a.len() != b.len() {
        return false;
    }
    for place in 0..a.len() {
        if !is_same_instant(a.at(place), b.at(place)) {
            return false;
        }
    }
    true
}

fn is_earlier(a: &Item, b: &Item) -> bool
    ensures { IsTrue result ↔ instant_of a.now <ℤ instant_of b.now }
{
    instant_of(a) < instant_of(b)
}

fn is_same_instant(a: &Item, b: &Item) -> bool
    ensures { IsTrue result ↔ (instant_of a.now ≡ instant_of b.now) }
{
    instant_of(a) == instant_of(b)
}

// The instant of a batch; 0 for another item.
fn instant_of(item: &Item) -> i64
    ensures { result ≡ instant_of item.now }
{
    match item {
        Item::Flat(flat) => match flat {
            Flat::Batch(batch) => batch.at,
            Flat::One(_) | Flat::Change(_) => 0,
        },
        Item::Pack(_) => 0,
    }
}
