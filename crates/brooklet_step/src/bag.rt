// One firing of a kernel on bags of rows. What comes of a relation is a change.
ghost use Rattle.std.specs.Prelude.{◌≡◌, [], ◌∷◌, OnOk};
ghost use Rattle.river_base.specs.declared.item.Item.TheVariants as variant;
ghost use Rattle.river_base.specs.declared.item.Flat.TheVariants as flat;
ghost use Rattle.work_code.specs.Term.{term, terms};
ghost use Rattle.river_kernels.specs.Kern.{window as window_kern, select as select_kern, project as project_kern, cross as cross_kern, streamer as streamer_kern};
ghost use Rattle.brooklet_step.specs.Given.{CanTake, FiresAt};
ghost use Rattle.brooklet_step.specs.Stands.{IsBatch, IsFlat};

use crate::emit::{Emit, Spare};
use crate::state::State;
use kern_bags::{Cross, Streamer, Window, project, select};
use river_base::{Batch, Flat, Item, NoMemory};
use std::alloc::Global;
use work_code::{Formula, Formulas};

// The batch that an item is.
fn batch_of(item: Item) -> Batch
    requires { IsBatch item }
    ensures { variant.Flat (flat.Batch result) ≡ item }
{
    match item {
        Item::Flat(Flat::Batch(batch)) => batch,
        _ => unreachable!(),
    }
}

// What an item is that is no pack.
pub(crate) fn flat_of(item: Item) -> Flat
    requires { IsFlat item }
    ensures { variant.Flat result ≡ item }
{
    match item {
        Item::Flat(content) => content,
        _ => unreachable!(),
    }
}

/// A batch comes to a window, which gives the change of its content.
pub(crate) fn fire_window(
    alloc: Global,
    window: &Window,
    item: Item,
    state: &mut State,
    out: &mut Emit,
    spare: &mut Spare,
) -> Result<(), NoMemory>
    requires { CanTake (window_kern window.now) 0 item (state.old ∷ []) out.old }
    ensures { OnOk result (FiresAt (window_kern window.now) 0 item out.old out.new (state.old ∷ []) (state.new ∷ [])) }
{
    match state {
        State::Window(rows) => {
            let mut items = spare.take_items(alloc);
            window.step(alloc, rows, batch_of(item), &mut items)?;
            out.give_all(0, items, spare)
        }
        _ => unreachable!(),
    }
}

/// A batch of a stream, or a change of a relation, comes to a selection.
pub(crate) fn fire_select(
    alloc: Global,
    cond: &Formula,
    item: Item,
    out: &mut Emit,
    spare: &mut Spare,
) -> Result<(), NoMemory>
    requires { CanTake (select_kern (term cond.now)) 0 item [] out.old }
    ensures { OnOk result (FiresAt (select_kern (term cond.now)) 0 item out.old out.new [] []) }
{
    let mut items = spare.take_items(alloc);
    select(cond, flat_of(item), &mut items)?;
    out.give_all(0, items, spare)
}

/// A change comes to a projection.
pub(crate) fn fire_project(
    alloc: Global,
    list: &Formulas,
    item: Item,
    out: &mut Emit,
    spare: &mut Spare,
) -> Result<(), NoMemory>
    requires { CanTake (project_kern (terms list.now)) 0 item [] out.old }
    ensures { OnOk result (FiresAt (project_kern (terms list.now)) 0 item out.old out.new [] []) }
{
    let mut items = spare.take_items(alloc);
    project(alloc, list, flat_of(item), &mut items)?;
    out.give_all(0, items, spare)
}

/// A change comes to a port of a product.
pub(crate) fn fire_cross(
    alloc: Global,
    port: u32,
    item: Item,
    state: &mut State,
    out: &mut Emit,
    spare: &mut Spare,
) -> Result<(), NoMemory>
    requires { CanTake cross_kern port item (state.old ∷ []) out.old }
    ensures { OnOk result (FiresAt cross_kern port item out.old out.new (state.old ∷ []) (state.new ∷ [])) }
{
    match state {
        State::Cross(rows) => {
            let mut items = spare.take_items(alloc);
            Cross::step(alloc, rows, port, flat_of(item), &mut items)?;
            out.give_all(0, items, spare)
        }
        _ => unreachable!(),
    }
}

/// A change comes to a streamer, which gives a batch.
pub(crate) fn fire_streamer(
    alloc: Global,
    streamer: &Streamer,
    item: Item,
    state: &mut State,
    out: &mut Emit,
    spare: &mut Spare,
) -> Result<(), NoMemory>
    requires { CanTake (streamer_kern streamer.now) 0 item (state.old ∷ []) out.old }
    ensures { OnOk result (FiresAt (streamer_kern streamer.now) 0 item out.old out.new (state.old ∷ []) (state.new ∷ [])) }
{
    match state {
        State::Streamer(content) => {
            let mut items = spare.take_items(alloc);
            streamer.step(alloc, content, flat_of(item), &mut items)?;
            out.give_all(0, items, spare)
        }
        _ => unreachable!(),
    }
}
