// What a joiner does with an item.
ghost use Rattle.std.specs.Prelude.{◌≡◌, ◌<◌, length, IfOk, OnOk, OnErr};
ghost use Rattle.kern_rows.specs.Joined.{join_start, put_item, HasJoinShape, JoinsItems, JoinsPlainly, KeepsJoin, JoinsPart};
ghost use Rattle.kern_rows.specs.Needs.{HaveShares};
ghost use Rattle.kern_rows.specs.Turns.{shares};

use crate::Collect;
use crate::joining::JoinState;
use crate::turn::share;
use river_base::{Item, Items, NoMemory, Numbers};
use std::alloc::Global;

/// What a joiner keeps between items: the port in turn, how many items it had, what waits at each
/// port, and what each port owes where they carry a relation.
pub type CollectState = JoinState;

// Items pass as long as the port in turn has one.
fn pass_all(
    alloc: Global,
    weights: &Numbers,
    state: &mut CollectState,
    out: &mut Items,
) -> Result<(), NoMemory>
    requires weights { HaveShares (shares weights.now) }
    requires shape { HasJoinShape (shares weights.now) state.old }
    ensures contents { OnOk result (JoinsItems (shares weights.now) state.old state.new out.old out.new) }
    ensures plain { OnOk result (JoinsPlainly (shares weights.now) state.old state.new out.old out.new) }
    ensures keeps { OnOk result (KeepsJoin (shares weights.now) state.old state.new out.old out.new) }
    ensures err { OnErr result (JoinsPart (shares weights.now) state.old out.old out.new) }
{
    while let Some((port, item)) = state.take(share(weights, state.turn())) {
        state.give(alloc, port, item, out)?;
    }
    Ok(())
}

impl Collect {
    /// The state before the first item: the first port is in turn, nothing waits, and nothing is
    /// owed.
    pub fn start(alloc: Global, weights: &Numbers) -> Result<CollectState, NoMemory>
        ensures { IfOk result (λ state. state ≡ join_start (length weights.now)) }
    {
        JoinState::start(alloc, weights.len())
    }

    /// An item comes to a port: it waits there, and items pass as long as the port in turn has one,
    /// each port as many in its turn as its weight. A change that passes is given as the change
    /// between the contents that pass, whatever port they came from; other items pass as they are.
    /// Where there is no memory, a part of what passes was appended, and nothing is said of the
    /// state.
    pub fn step(
        alloc: Global,
        weights: &Numbers,
        state: &mut CollectState,
        port: u32,
        item: Item,
        out: &mut Items,
    ) -> Result<(), NoMemory>
        requires weights { HaveShares (shares weights.now) }
        requires shape { HasJoinShape (shares weights.now) state.old }
        requires port { port < length weights.now }
        ensures contents { OnOk result (JoinsItems (shares weights.now) (put_item port item state.old) state.new out.old out.new) }
        ensures plain { OnOk result (JoinsPlainly (shares weights.now) (put_item port item state.old) state.new out.old out.new) }
        ensures keeps { OnOk result (KeepsJoin (shares weights.now) (put_item port item state.old) state.new out.old out.new) }
        ensures err { OnErr result (JoinsPart (shares weights.now) (put_item port item state.old) out.old out.new) }
    {
        state.put(port, item)?;
        pass_all(alloc, weights, state, out)?;
        Ok(())
    }
}
