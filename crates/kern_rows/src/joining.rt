// What joiners keep, and how items pass them: changes of a relation with what their port owes.
ghost use Rattle.std.specs.Prelude.{◌≡◌, ◌<◌, length, IfOk, OnOk, OnErr, MatchOption};
ghost use Rattle.river_base.specs.declared.item.Item.TheVariants as variant;
ghost use Rattle.kern_rows.specs.Joined.{join_start, put_item, TakesItem, JoinsFlat, JoinsFlats, JoinsItem, JoinsFlatsPart, JoinsItemPart};
ghost use Rattle.kern_rows.specs.Passing.{IsStuck};

use crate::joined::Joined;
use kern_changes::Owed;
use river_base::{Flat, Flats, Item, Items, NoMemory};
use std::alloc::Global;
use std::marker::Model;

/// What a joiner keeps: the items that wait at its ports, which take turns, and what each port owes
/// where they are changes.
#[derive(Drop)]
pub struct JoinState {
    joined: Joined,
    owed: Owed,
}

impl Model for JoinState {
    ghost use Rattle.kern_rows.specs.Joined.{JoinKept};

    ghost Value = { JoinKept };

    ghost view = { λ s. record { turns = s.joined; owed = s.owed } };
}

// What is given for an item of the port at a place: a change with what the port owes, any other
// as it is.
fn join_flat(alloc: Global, place: usize, flat: Flat, owed: &mut Owed) -> Result<Flat, NoMemory>
    requires { place < length owed.old }
    ensures { IfOk result (λ given. JoinsFlat place flat owed.old owed.new given) }
{
    match flat {
        Flat::One(row) => Ok(Flat::One(row)),
        Flat::Batch(batch) => Ok(Flat::Batch(batch)),
        Flat::Change(change) => Ok(Flat::Change(owed.join(alloc, place, &change)?)),
    }
}

// Each item of a pack of the port at a place passes, in order.
fn join_pack(
    alloc: Global,
    place: usize,
    pack: Flats,
    owed: &mut Owed,
    out: &mut Items,
) -> Result<(), NoMemory>
    requires { place < length owed.old }
    ensures ok { OnOk result (JoinsFlats place pack owed.old owed.new out.old out.new) }
    ensures err { OnErr result (JoinsFlatsPart place pack owed.old out.old out.new) }
{
    for flat in pack.into_vec() {
        let given = join_flat(alloc, place, flat, owed)?;
        out.push(Item::Flat(given))?;
    }
    Ok(())
}

// An item that is no pack passes.
fn join_alone(
    alloc: Global,
    place: usize,
    flat: Flat,
    owed: &mut Owed,
    out: &mut Items,
) -> Result<(), NoMemory>
    requires { place < length owed.old }
    ensures ok { OnOk result (JoinsItem place (variant.Flat flat) owed.old owed.new out.old out.new) }
    ensures err { OnErr result (out.new ≡ out.old) }
{
    let given = join_flat(alloc, place, flat, owed)?;
    out.push(Item::Flat(given))?;
    Ok(())
}

// An item of the port at a place passes.
fn join_item(
    alloc: Global,
    place: usize,
    item: Item,
    owed: &mut Owed,
    out: &mut Items,
) -> Result<(), NoMemory>
    requires { place < length owed.old }
    ensures ok { OnOk result (JoinsItem place item owed.old owed.new out.old out.new) }
    ensures err { OnErr result (JoinsItemPart place item owed.old out.old out.new) }
{
    match item {
        Item::Flat(flat) => join_alone(alloc, place, flat, owed, out),
        Item::Pack(pack) => join_pack(alloc, place, pack, owed, out),
    }
}

impl JoinState {
    /// The state before the first item: the first of so many ports is in turn, and nothing is owed.
    pub fn start(alloc: Global, ports: usize) -> Result<JoinState, NoMemory>
        ensures { IfOk result (λ state. state ≡ join_start ports) }
    {
        Ok(JoinState {
            joined: Joined::start(alloc, ports)?,
            owed: Owed::start(alloc, ports)?,
        })
    }

    /// An item comes to a port, and waits there.
    pub fn put(&mut self, port: u32, item: Item) -> Result<(), NoMemory>
        requires { port < length self.old.turns.lists }
        ensures { OnOk result (self.new ≡ put_item port item self.old) }
    {
        self.joined.put(port as usize, item)?;
        Ok(())
    }

    /// The port in turn.
    pub fn turn(&self) -> usize
        ensures { result ≡ self.now.turns.port }
    {
        self.joined.turn()
    }

    /// The front item of the port in turn, whose share this is, leaves; None where there is none.
    pub fn take(&mut self, share: u64) -> Option<(usize, Item)>
        requires port { self.old.turns.port < length self.old.turns.lists }
        requires had { self.old.turns.had < share }
        ensures turns { MatchOption result (IsStuck self.old.turns self.new.turns) (λ taken. TakesItem share self.old.turns self.new.turns taken) }
        ensures owed { self.new.owed ≡ self.old.owed }
    {
        let port = self.joined.turn();
        let item = self.joined.pass(share)?;
        Some((port, item))
    }

    /// An item of the port at a place is given, and its items where it is a pack.
    pub fn give(
        &mut self,
        alloc: Global,
        place: usize,
        item: Item,
        out: &mut Items,
    ) -> Result<(), NoMemory>
        requires { place < length self.old.owed }
        ensures turns { OnOk result (self.new.turns ≡ self.old.turns) }
        ensures ok { OnOk result (JoinsItem place item self.old.owed self.new.owed out.old out.new) }
        ensures err { OnErr result (JoinsItemPart place item self.old.owed out.old out.new) }
    {
        join_item(alloc, place, item, &mut self.owed, out)
    }
}
