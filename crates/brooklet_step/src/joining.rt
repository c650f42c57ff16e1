// Firings of joiners.
ghost use Rattle.std.specs.Prelude.{◌≡◌, ◌∷◌, [], OnOk};
ghost use Rattle.river_base.specs.declared.item.Item.TheVariants as variant;
ghost use Rattle.river_kernels.specs.Kern.{collect as collect_kern, unpack as unpack_kern};
ghost use Rattle.brooklet_step.specs.Given.{CanTake, FiresAt};
ghost use Rattle.brooklet_step.specs.Stands.{IsPack};

use crate::emit::{Emit, Spare};
use crate::state::State;
use kern_rows::{Collect, Unpack};
use river_base::{Flats, Item, NoMemory, Numbers};
use std::alloc::Global;

// The pack that an item is.
fn pack_of(item: Item) -> Flats
    requires { IsPack item }
    ensures { variant.Pack result ≡ item }
{
    match item {
        Item::Pack(pack) => pack,
        _ => unreachable!(),
    }
}

/// An item comes to a joiner, a change as the others.
pub(crate) fn fire_collect(
    alloc: Global,
    weights: &Numbers,
    port: u32,
    item: Item,
    state: &mut State,
    out: &mut Emit,
    spare: &mut Spare,
) -> Result<(), NoMemory>
    requires { CanTake (collect_kern weights.now) port item (state.old ∷ []) out.old }
    ensures { OnOk result (FiresAt (collect_kern weights.now) port item out.old out.new (state.old ∷ []) (state.new ∷ [])) }
{
    match state {
        State::Join(state) => {
            let mut items = spare.take_items(alloc);
            Collect::step(alloc, weights, state, port, item, &mut items)?;
            out.give_all(0, items, spare)
        }
        _ => unreachable!(),
    }
}

/// A pack comes to a joiner of packs, of changes or not.
pub(crate) fn fire_unpack(
    alloc: Global,
    ports: u32,
    port: u32,
    item: Item,
    state: &mut State,
    out: &mut Emit,
    spare: &mut Spare,
) -> Result<(), NoMemory>
    requires { CanTake (unpack_kern ports) port item (state.old ∷ []) out.old }
    ensures { OnOk result (FiresAt (unpack_kern ports) port item out.old out.new (state.old ∷ []) (state.new ∷ [])) }
{
    match state {
        State::Join(state) => {
            let mut items = spare.take_items(alloc);
            Unpack::step(alloc, ports, state, port, pack_of(item), &mut items)?;
            out.give_all(0, items, spare)
        }
        _ => unreachable!(),
    }
}
