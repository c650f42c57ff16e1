// What a joiner of packs does with a pack.
ghost use Rattle.std.specs.Prelude.{◌≡◌, ◌<◌, IfOk, OnOk, OnErr};
ghost use Rattle.river_base.specs.declared.item.Item.TheVariants.{Pack};
ghost use Rattle.kern_rows.specs.Joined.{join_start, put_item, HasJoinShape, JoinsItems, JoinsPlainly, KeepsJoin, JoinsPart};
ghost use Rattle.kern_rows.specs.Turns.{ones};

use crate::Unpack;
use crate::joining::JoinState;
use river_base::{Flats, Item, Items, NoMemory};
use std::alloc::Global;

/// What a joiner of packs keeps between packs: the port in turn, the packs that wait at each port,
/// and what each port owes where they are packs of changes.
pub type UnpackState = JoinState;

// Packs are opened as long as the port in turn has one.
fn open_all(
    alloc: Global,
    ports: u32,
    state: &mut UnpackState,
    out: &mut Items,
) -> Result<(), NoMemory>
    requires some { 0 < ports }
    requires shape { HasJoinShape (ones ports) state.old }
    ensures contents { OnOk result (JoinsItems (ones ports) state.old state.new out.old out.new) }
    ensures plain { OnOk result (JoinsPlainly (ones ports) state.old state.new out.old out.new) }
    ensures keeps { OnOk result (KeepsJoin (ones ports) state.old state.new out.old out.new) }
    ensures err { OnErr result (JoinsPart (ones ports) state.old out.old out.new) }
{
    while let Some((port, pack)) = state.take(1) {
        state.give(alloc, port, pack, out)?;
    }
    Ok(())
}

impl Unpack {
    /// The state before the first pack: the first port is in turn, nothing waits, and nothing is
    /// owed.
    pub fn start(alloc: Global, ports: u32) -> Result<UnpackState, NoMemory>
        ensures { IfOk result (λ state. state ≡ join_start ports) }
    {
        JoinState::start(alloc, ports as usize)
    }

    /// A pack comes to a port: it waits there, and packs pass in turn, one of each port, as long as
    /// the port in turn has one. The items of a pack that passes are given in order, changes as the
    /// changes between the contents that pass. Where there is no memory, a part of what passes was
    /// appended, and nothing is said of the state.
    pub fn step(
        alloc: Global,
        ports: u32,
        state: &mut UnpackState,
        port: u32,
        pack: Flats,
        out: &mut Items,
    ) -> Result<(), NoMemory>
        requires shape { HasJoinShape (ones ports) state.old }
        requires port { port < ports }
        ensures contents { OnOk result (JoinsItems (ones ports) (put_item port (Pack pack) state.old) state.new out.old out.new) }
        ensures plain { OnOk result (JoinsPlainly (ones ports) (put_item port (Pack pack) state.old) state.new out.old out.new) }
        ensures keeps { OnOk result (KeepsJoin (ones ports) (put_item port (Pack pack) state.old) state.new out.old out.new) }
        ensures err { OnErr result (JoinsPart (ones ports) (put_item port (Pack pack) state.old) out.old out.new) }
    {
        state.put(port, Item::Pack(pack))?;
        open_all(alloc, ports, state, out)?;
        Ok(())
    }
}
