// Firings of bodies, filters, splitters and tallies.
ghost use Rattle.std.specs.Prelude.{◌≡◌, ◌<◌, ◌≤◌, ◌^◌, ◌∷◌, [], ◌++◌, length, map, IfOk, OnOk};
ghost use Rattle.river_base.specs.declared.item.Item.TheVariants as variant;
ghost use Rattle.river_base.specs.declared.item.Flat.TheVariants as flat;
ghost use Rattle.river_base.specs.Places.{each_grew, only};
ghost use Rattle.kern_rows.specs.Dealing.{IsPortInTurn, TurnsOn};
ghost use Rattle.kern_rows.specs.Forms.{code_form, filter_form};
ghost use Rattle.kern_rows.specs.Needs.{CanCode, HaveShares};
ghost use Rattle.kern_rows.specs.Runs.{run_kept};
ghost use Rattle.kern_rows.specs.Turns.{shares};
ghost use Rattle.river_kernels.specs.Kern.{code as code_kern, filter as filter_kern, deal as deal_kern};
ghost use Rattle.brooklet_model.specs.Fire.{fire as fire_lem, values_of};
ghost use Rattle.brooklet_model.specs.Firings.{gives};
ghost use Rattle.brooklet_step.specs.Took.{Took};
ghost use Rattle.brooklet_step.specs.Dealing.{DealsItem};
ghost use Rattle.brooklet_step.specs.Given.{CanTake, FiresAt};
ghost use Rattle.brooklet_step.specs.Stands.{MayTake, Applies, Fires, IsRow, IsSlots, Pushed, RanKept};

use crate::emit::{Emit, Spare};
use crate::state::State;
use kern_rows::{CodeKernel, Deal, DealState, Filter, ItemLine};
use river_base::{Flat, Item, NoMemory, Numbers, Row};
use std::alloc::Global;
use work_code::Emitted;

// The row that an item is.
fn row_of(item: &Item) -> &Row
    requires { IsRow item.now }
    ensures values { result.now ≡ values_of item.now }
    ensures is { variant.Flat (flat.One result.now) ≡ item.now }
{
    match item {
        Item::Flat(Flat::One(row)) => row,
        _ => unreachable!(),
    }
}

// What a body without kept slots pushes comes to an empty list. Its other slots stand in a list that
// is used again.
fn push_once(
    alloc: Global,
    kernel: &CodeKernel,
    row: &[i64],
    pushes: &mut Emitted,
    spare: &mut Spare,
) -> Result<(), NoMemory>
    requires formed { CanCode (code_form kernel.now) }
    requires none { (code_form kernel.now).starts ≡ [] }
    requires row { length row.now ≡ (code_form kernel.now).body.inputs }
    requires empty { pushes.old ≡ [] }
    ensures { OnOk result (pushes.new ≡ (run_kept (code_form kernel.now).body [] row.now).pushes) }
{
    let mut slots = spare.take_values(alloc);
    let pushed = kernel.step(&mut slots, row, pushes);
    spare.put_values(slots);
    pushed
}

// What a body with kept slots pushes comes to an empty list.
fn push_kept(
    kernel: &CodeKernel,
    row: &[i64],
    state: &mut State,
    pushes: &mut Emitted,
) -> Result<(), NoMemory>
    requires formed { CanCode (code_form kernel.now) }
    requires slots { IsSlots (length (code_form kernel.now).starts) state.old }
    requires row { length row.now ≡ (code_form kernel.now).body.inputs }
    requires empty { pushes.old ≡ [] }
    ensures { OnOk result (RanKept (code_form kernel.now).body row.now state.old state.new pushes.new) }
{
    match state {
        State::Slots(slots) => kernel.step(slots, row, pushes),
        _ => unreachable!(),
    }
}

// What a body pushes comes to an empty list.
fn push_all(
    alloc: Global,
    kernel: &CodeKernel,
    row: &[i64],
    states: &mut [State],
    pushes: &mut Emitted,
    spare: &mut Spare,
) -> Result<(), NoMemory>
    requires takes { MayTake (code_kern (code_form kernel.now)) 0 (variant.Flat (flat.One row.now)) states.old }
    requires empty { pushes.old ≡ [] }
    ensures { OnOk result (Pushed (code_form kernel.now) (variant.Flat (flat.One row.now)) states.old states.new pushes.new) }
{
    if kernel.starts.is_empty() {
        push_once(alloc, kernel, row, pushes, spare)
    } else {
        push_kept(kernel, row, &mut states[0], pushes)
    }
}

/// A body runs on a row.
pub(crate) fn fire_code(
    alloc: Global,
    kernel: &CodeKernel,
    item: Item,
    states: &mut [State],
    out: &mut Emit,
    spare: &mut Spare,
) -> Result<(), NoMemory>
    requires { Applies (code_kern (code_form kernel.now)) 0 item states.old out.old }
    ensures { OnOk result (Fires (code_kern (code_form kernel.now)) out.old out.new states.old states.new
        (fire_lem (code_kern (code_form kernel.now)) 0 item)) }
{
    run_row(alloc, kernel, row_of(&item).values(), states, out, spare)
}

/// A body runs on the row of these values.
pub(crate) fn run_row(
    alloc: Global,
    kernel: &CodeKernel,
    row: &[i64],
    states: &mut [State],
    out: &mut Emit,
    spare: &mut Spare,
) -> Result<(), NoMemory>
    requires { Applies (code_kern (code_form kernel.now)) 0 (variant.Flat (flat.One row.now)) states.old out.old }
    ensures { OnOk result (Fires (code_kern (code_form kernel.now)) out.old out.new states.old states.new
        (fire_lem (code_kern (code_form kernel.now)) 0 (variant.Flat (flat.One row.now)))) }
{
    let mut pushes = spare.take_pushes(alloc);
    push_all(alloc, kernel, row, states, &mut pushes, spare)?;
    out.give_pushes(pushes, spare)
}

// Each value as a row comes to the end of a line.
#[tactic(auto, using(std::proofs::lemmas::List::map_more))]
fn add_values(values: &Numbers, line: &mut ItemLine) -> Result<(), NoMemory>
    ensures { OnOk result (line.new ≡ line.old ++ map (λ v. variant.Flat (flat.One (v ∷ []))) values.now) }
{
    for value in values.as_slice() {
        line.push_values(&[*value])?;
    }
    Ok(())
}

// Each value as a row at the first port.
fn give_values(values: &Numbers, out: &mut Emit) -> Result<(), NoMemory>
    requires { 0 < length out.old.outs }
    ensures { OnOk result (Took out.old out.new (gives 0 (map (λ v. variant.Flat (flat.One (v ∷ []))) values.now) [])) }
{
    add_values(values, out.outs.at_mut(0))
}

/// A value comes to a filter.
pub(crate) fn fire_filter(
    alloc: Global,
    filter: &Filter,
    item: Item,
    state: &mut State,
    out: &mut Emit,
    spare: &mut Spare,
) -> Result<(), NoMemory>
    requires { Applies (filter_kern (filter_form filter.now)) 0 item (state.old ∷ []) out.old }
    ensures { OnOk result (Fires (filter_kern (filter_form filter.now)) out.old out.new
        (state.old ∷ []) (state.new ∷ []) (fire_lem (filter_kern (filter_form filter.now)) 0 item)) }
{
    filter_row(alloc, filter, row_of(&item).values(), state, out, spare)
}

/// The row of this value comes to a filter.
pub(crate) fn filter_row(
    alloc: Global,
    filter: &Filter,
    row: &[i64],
    state: &mut State,
    out: &mut Emit,
    spare: &mut Spare,
) -> Result<(), NoMemory>
    requires some { 1 ≤ length row.now }
    requires applies { Applies (filter_kern (filter_form filter.now)) 0 (variant.Flat (flat.One row.now)) (state.old ∷ []) out.old }
    ensures { OnOk result (Fires (filter_kern (filter_form filter.now)) out.old out.new
        (state.old ∷ []) (state.new ∷ []) (fire_lem (filter_kern (filter_form filter.now)) 0 (variant.Flat (flat.One row.now)))) }
{
    match state {
        State::Filter(state) => {
            let mut values = spare.take_values(alloc);
            filter.step(state, row[0], &mut values)?;
            let given = give_values(&values, out);
            spare.put_values(values);
            given
        }
        _ => unreachable!(),
    }
}

// The port in turn, and what its list is given for an item: the item itself; or for a change the
// change of this list, by what each list owes.
fn deal_item(
    alloc: Global,
    weights: &Numbers,
    item: Item,
    dealt: &mut DealState,
) -> Result<(u32, Item), NoMemory>
    requires few { length weights.now < 2 ^ 32 }
    requires weights { HaveShares (shares weights.now) }
    requires turn { IsPortInTurn (shares weights.now) dealt.old.turn }
    requires owed { length dealt.old.owed ≡ length weights.now }
    ensures port { IfOk result (λ given. given.0 ≡ dealt.old.turn.port) }
    ensures turn { OnOk result (TurnsOn (shares weights.now) dealt.old.turn dealt.new.turn) }
    ensures item { IfOk result (λ given. DealsItem dealt.old.turn.port item dealt.old.owed dealt.new.owed given.1) }
{
    match item {
        Item::Flat(Flat::Change(change)) => {
            let (port, given) = Deal::flat(alloc, weights, dealt, Flat::Change(change))?;
            Ok((port, Item::Flat(given)))
        }
        item => Ok((Deal::step(weights, dealt), item)),
    }
}

/// A splitter passes an item; a number of ports that is no u32 is want of memory.
pub(crate) fn fire_deal(
    alloc: Global,
    weights: &Numbers,
    item: Item,
    state: &mut State,
    out: &mut Emit,
) -> Result<(), NoMemory>
    requires { CanTake (deal_kern weights.now) 0 item (state.old ∷ []) out.old }
    ensures { OnOk result (FiresAt (deal_kern weights.now) 0 item out.old out.new (state.old ∷ []) (state.new ∷ [])) }
{
    if weights.len() > u32::MAX as usize {
        return Err(NoMemory);
    }
    match state {
        State::Deal(dealt) => {
            let (port, given) = deal_item(alloc, weights, item, dealt)?;
            out.give(port as usize, given)
        }
        _ => unreachable!(),
    }
}

/// A row is added to the table.
pub(crate) fn fire_tally(item: Item, out: &mut Emit) -> Result<(), NoMemory>
    requires row { IsRow item }
    requires room { 0 < length out.old.adds }
    ensures outs { OnOk result (out.new.outs ≡ out.old.outs) }
    ensures adds { OnOk result (out.new.adds ≡ each_grew out.old.adds (only 0 (values_of item ∷ []))) }
{
    out.add_row(0, row_of(&item))
}
