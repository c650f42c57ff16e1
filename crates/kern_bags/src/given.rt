// What kernels on bags give.
ghost use Rattle.std.specs.Prelude.{◌≡◌, [], ◌∷◌, ◌++◌, OnOk, OnErr};
ghost use Rattle.river_base.specs.Grew.{GrewByPrefix};
ghost use Rattle.river_base.specs.declared.item.Item.TheVariants.{Flat as flat_item};
ghost use Rattle.river_base.specs.declared.item.Flat.TheVariants.{Batch as batched, Change as changed};
ghost use Rattle.kern_bags.specs.Following.{as_changes};
ghost use Rattle.river_base.specs.Changes.{IsChanged};

use crate::line::Changes;
use river_base::{Batch, Change, Flat, Item, Items, NoMemory};

/// One more batch; nothing where there is no memory.
pub(crate) fn give_batch(batch: Batch, out: &mut Items) -> Result<(), NoMemory>
    ensures ok { OnOk result (out.new ≡ out.old ++ flat_item (batched batch) ∷ []) }
    ensures err { OnErr result (out.new ≡ out.old) }
{
    out.push(Item::Flat(Flat::Batch(batch)))?;
    Ok(())
}

/// One more change; nothing where there is no memory.
pub(crate) fn give_change(change: Change, out: &mut Items) -> Result<(), NoMemory>
    ensures ok { OnOk result (out.new ≡ out.old ++ flat_item (changed change) ∷ []) }
    ensures err { OnErr result (out.new ≡ out.old) }
{
    out.push(Item::Flat(Flat::Change(change)))?;
    Ok(())
}

/// More changes; a part of them where there is no memory.
pub(crate) fn give_changes(changes: Changes, out: &mut Items) -> Result<(), NoMemory>
    ensures ok { OnOk result (out.new ≡ out.old ++ as_changes changes) }
    ensures err { OnErr result (GrewByPrefix out.old (as_changes changes) out.new) }
{
    for change in changes.into_vec() {
        give_change(change, out)?;
    }
    Ok(())
}

/// The change that an item is.
pub(crate) fn change_of(item: Flat) -> Change
    requires { IsChanged item }
    ensures { changed result ≡ item }
{
    match item {
        Flat::Change(change) => change,
        _ => unreachable!(),
    }
}
