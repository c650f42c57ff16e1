// Splitters and joiners, by the numbers of their items.
ghost use Rattle.std.specs.Prelude.{◌≡◌, ◌+◌, ◌*◌, ◌/◌, ◌%◌, [], replicate, IfOk, nat_eq, slice_index_or};
ghost use Rattle.brooklet_model.specs.ByIndex.{cycle, part_of_cycle, within, branch, dealt, collected_at, size_of, collected};
ghost use Rattle.streamit_model.specs.Meaning.{weights_for};
ghost use Rattle.streamit_text.specs.Program.{weights_of};

use river_base::{Listed, NoMemory, Numbers};
use std::alloc::Global;
use streamit_text::RoundRobin;

/// The weights of so many branches, where these are written: none stands for 1 each, one for as many each.
pub(crate) fn weights_for(
    alloc: Global,
    written: &RoundRobin,
    branches: usize,
) -> Result<Vec<u64>, NoMemory>
    ensures { IfOk result (λ all. all.items ≡ weights_for (weights_of written.now) branches) }
{
    match &written.weights {
        Some(weights) => in_brackets(alloc, weights.as_slice(), branches),
        None => equal(alloc, 1, branches),
    }
}

// The weights of so many branches, where these stand in the brackets.
fn in_brackets(alloc: Global, written: &[u64], branches: usize) -> Result<Vec<u64>, NoMemory>
    ensures { IfOk result (λ all. all.items ≡ weights_for (Some written.now) branches) }
{
    match written {
        [] => equal(alloc, 1, branches),
        [weight] => equal(alloc, *weight, branches),
        _ => Ok(Vec::from_slice(alloc, written)?),
    }
}

// One weight for each branch.
fn equal(alloc: Global, weight: u64, branches: usize) -> Result<Vec<u64>, NoMemory>
    ensures { IfOk result (λ all. all.items ≡ replicate branches weight) }
{
    let mut all = Vec::new(alloc);
    for _i in 0..branches {
        all.push(weight)?;
    }
    Ok(all)
}

// How many items one cycle has; there is no memory for so many items where there is no such number.
fn cycle(weights: &[u64]) -> Result<u64, NoMemory>
    ensures { IfOk result (λ n. n ≡ cycle weights.now) }
{
    let mut sum: u64 = 0;
    for weight in weights {
        sum = sum.checked_add(*weight).ok_or(NoMemory)?;
    }
    Ok(sum)
}

// Where an item stands: in which cycle, and at which place of it. A cycle of no items has all places.
#[derive(Clone, Copy)]
struct CyclePlace {
    cycle: u64,
    place: u64,
}

impl CyclePlace {
    // Of item x, for the size of a cycle.
    fn of(x: usize, cycle: u64) -> CyclePlace
        ensures cycle { result.cycle ≡ x / cycle }
        ensures place { result.place ≡ x % cycle }
    {
        let x = x as u64;
        if cycle == 0 {
            CyclePlace { cycle: 0, place: x }
        } else {
            CyclePlace {
                cycle: x / cycle,
                place: x % cycle,
            }
        }
    }
}

// The branch in whose part of a cycle a place falls, and where in this part.
#[derive(Clone, Copy)]
struct Spot {
    branch: usize,
    within: u64,
}

impl Spot {
    fn of(weights: &[u64], place: u64) -> Spot
        ensures branch { result.branch ≡ part_of_cycle weights.now place }
        ensures within { result.within ≡ within weights.now place }
    {
        let mut left = place;
        for (branch, weight) in weights.iter().enumerate() {
            if left < *weight {
                return Spot {
                    branch,
                    within: left,
                };
            }
            left -= *weight;
        }
        Spot {
            branch: weights.len(),
            within: 0,
        }
    }
}

/// What a splitter deals to a branch: the items of which it is the branch.
pub(crate) fn dealt(
    alloc: Global,
    weights: &[u64],
    branch: usize,
    items: &[i64],
) -> Result<Numbers, NoMemory>
    ensures { IfOk result (λ out. out ≡ dealt weights.now branch items.now) }
{
    let cycle = cycle(weights)?;
    let mut out = Numbers::new(alloc);
    for x in 0..items.len() {
        if is_dealt(weights, cycle, x, branch) {
            out.push(items[x])?;
        }
    }
    Ok(out)
}

// Whether the branch of item x is this one.
fn is_dealt(weights: &[u64], size: u64, x: usize, p: usize) -> bool
    requires { size ≡ cycle weights.now }
    ensures { result ≡ nat_eq (branch weights.now x) p }
{
    let place = CyclePlace::of(x, size).place;
    Spot::of(weights, place).branch == p
}

/// What a joiner collects from its branches: as many places as have their items.
pub(crate) fn collected(
    alloc: Global,
    weights: &[u64],
    branches: &[Numbers],
) -> Result<Numbers, NoMemory>
    ensures { IfOk result (λ out. out ≡ collected weights.now branches.now) }
{
    let cycle = cycle(weights)?;
    let size = size_of(branches)?;
    let mut out = Numbers::new(alloc);
    for x in 0..size {
        match item_at(weights, cycle, branches, x)? {
            Some(item) => out.push(item)?,
            None => return Ok(out),
        }
    }
    Ok(out)
}

// The item of its branch that stands at place x of what a joiner collects, where it is there.
fn item_at(
    weights: &[u64],
    size: u64,
    branches: &[Numbers],
    x: usize,
) -> Result<Option<i64>, NoMemory>
    requires { size ≡ cycle weights.now }
    ensures { IfOk result (λ item. item ≡ collected_at weights.now branches.now x) }
{
    let turn = CyclePlace::of(x, size);
    let spot = Spot::of(weights, turn.place);
    let weight = weight_at(weights, spot.branch);
    let number = number(turn.cycle, weight, spot.within)?;
    match branches.get(spot.branch) {
        Some(items) => Ok(items.as_slice().get(number).copied()),
        None => Ok(None),
    }
}

// The weight of a branch; 0 where there is none.
fn weight_at(weights: &[u64], branch: usize) -> u64
    ensures { result ≡ slice_index_or weights.now branch 0 }
{
    match weights.get(branch) {
        Some(weight) => *weight,
        None => 0,
    }
}

// The number of an item, whose branch had its weight in each cycle before.
fn number(cycles: u64, weight: u64, within: u64) -> Result<usize, NoMemory>
    ensures { IfOk result (λ n. n ≡ cycles * weight + within) }
{
    let before = cycles.checked_mul(weight).ok_or(NoMemory)?;
    let number = before.checked_add(within).ok_or(NoMemory)?;
    Ok(number as usize)
}

// How many items the branches have; there is no memory for so many items where there is no such number.
fn size_of(branches: &[Numbers]) -> Result<usize, NoMemory>
    ensures { IfOk result (λ n. n ≡ size_of branches.now) }
{
    let mut size: usize = 0;
    for items in branches {
        size = size.checked_add(items.len()).ok_or(NoMemory)?;
    }
    Ok(size)
}
