// The weights of splitters and joiners.
ghost use Rattle.std.specs.Prelude.{◌≡◌, ◌≤◌, replicate, nat_le, false, Some, IfOk, IsTrue, ◌↔◌};
ghost use Rattle.std.specs.List.{list_all};
ghost use Rattle.brooklet_model.specs.ByIndex.{cycle};
ghost use Rattle.streamit_model.specs.Judged.{round_of, fitting_round};
ghost use Rattle.streamit_unroll.specs.View.{Judges};
ghost use Rattle.streamit_text.specs.Program.{numbers_in, weights_of};

use river_base::{MOST_ITEMS, NoMemory};
use std::alloc::Global;
use streamit_model::Fault;
use streamit_text::RoundRobin;
use streamit_unroll::RefusedUnit;

/// The weights of so many branches, where these are written: none stands for 1 each, one for as many each.
pub(crate) fn round(
    alloc: Global,
    written: &RoundRobin,
    branches: usize,
) -> Result<Vec<u32>, RefusedUnit>
    requires { 1 ≤ branches }
    ensures { Judges numbers_in result (round_of (weights_of written.now) branches) }
{
    match &written.weights {
        Some(weights) => listed(alloc, weights.as_slice(), branches),
        None => equal(alloc, 1, branches),
    }
}

// The weights of so many branches, where these stand in the brackets.
fn listed(alloc: Global, written: &[u64], branches: usize) -> Result<Vec<u32>, RefusedUnit>
    requires { 1 ≤ branches }
    ensures { Judges numbers_in result (round_of (Some written.now) branches) }
{
    match written {
        [] => equal(alloc, 1, branches),
        [weight] => equal(alloc, *weight, branches),
        _ => each(alloc, written, branches),
    }
}

// One weight for each branch.
fn equal(alloc: Global, weight: u64, branches: usize) -> Result<Vec<u32>, RefusedUnit>
    requires { 1 ≤ branches }
    ensures { Judges numbers_in result (fitting_round (replicate branches weight) branches) }
{
    if weight == 0 {
        return Err(RefusedUnit::Fault(Fault::Weights));
    }
    if weight > MOST_ITEMS as u64 {
        return Err(RefusedUnit::Fault(Fault::Limit));
    }
    if branches > MOST_ITEMS as usize {
        return Err(RefusedUnit::Fault(Fault::Limit));
    }
    if weight * branches as u64 > MOST_ITEMS as u64 {
        return Err(RefusedUnit::Fault(Fault::Limit));
    }
    Ok(copies(alloc, weight as u32, branches)?)
}

// So many times this weight.
fn copies(alloc: Global, weight: u32, count: usize) -> Result<Vec<u32>, NoMemory>
    ensures { IfOk result (λ all. all.items ≡ replicate count weight) }
{
    let mut all = Vec::new(alloc);
    for _i in 0..count {
        all.push(weight)?;
    }
    Ok(all)
}

// The weights as they are written.
fn each(alloc: Global, written: &[u64], branches: usize) -> Result<Vec<u32>, RefusedUnit>
    ensures { Judges numbers_in result (fitting_round written.now branches) }
{
    if written.len() != branches || has_zero(written) {
        return Err(RefusedUnit::Fault(Fault::Weights));
    }
    if !is_low(written) {
        return Err(RefusedUnit::Fault(Fault::Limit));
    }
    Ok(taken(alloc, written)?)
}

// Whether one of the weights is 0.
fn has_zero(written: &[u64]) -> bool
    ensures { IsTrue result ↔ (list_all (λ w. nat_le 1 w) written.now ≡ false) }
{
    for weight in written {
        if *weight == 0 {
            return true;
        }
    }
    false
}

// Whether their sum is not above the limit.
fn is_low(written: &[u64]) -> bool
    ensures { IsTrue result ↔ (cycle written.now ≤ 65536) }
{
    let mut left = MOST_ITEMS as u64;
    for weight in written {
        if *weight > left {
            return false;
        }
        left -= *weight;
    }
    true
}

// Weights that are within the limit.
fn taken(alloc: Global, written: &[u64]) -> Result<Vec<u32>, NoMemory>
    requires { cycle written.now ≤ 65536 }
    ensures { IfOk result (λ all. all.items ≡ written.now) }
{
    let mut all = Vec::new(alloc);
    for weight in written {
        all.push(*weight as u32)?;
    }
    Ok(all)
}
