// Several classes at once: all of them, or none.
ghost use Rattle.std.specs.Prelude.{◌≡◌, ◌≤◌, ◌<◌, [], All, length, IfOk, OnOk, OnErr, vec_capacity};
ghost use Rattle.std.specs.List.Sorted.{IsStrictlyIncreasing};
ghost use Rattle.class_locks.specs.Piles.{IsPile, HasLooked, HasTaken, HasPut, HasMoreTries, FoundTaken};

use crate::Cell;
use crate::seat::{Busy, Seat};
use river_base::NoMemory;
use std::alloc::Global;
use std::marker::Model;
use std::mem::replace;

/// Cells of classes that a seat holds, each with the number of its class, the last taken at the end.
pub type Pile = Vec<(u32, Cell)>;

/// Room for a pile, with no cell in it. Contracts see for how many cells it is enough.
#[derive(Drop)]
pub struct Room {
    alloc: Global,
    pile: Pile,
}

impl Model for Room {
    ghost use Rattle.std.specs.Prelude.{◌≡◌, ℕ, [], vec_capacity};

    ghost Value = { ℕ };

    ghost view = { λ r. vec_capacity r.pile };

    ghost invariant = { λ r. r.pile.items ≡ [] };
}

impl Room {
    /// Room for so many cells.
    pub fn new(alloc: Global, count: usize) -> Result<Room, NoMemory>
        ensures { IfOk result (λ room. count ≤ room) }
    {
        let pile = Pile::with_capacity(alloc, count)?;
        Ok(Room { alloc, pile })
    }

    /// Room for so many cells from here on, or for more.
    pub fn reserve(&mut self, count: usize) -> Result<(), NoMemory>
        ensures { OnOk result (count ≤ self.new) }
    {
        self.pile.reserve(count)?;
        Ok(())
    }

    // A pile without cells that has all of the room.
    fn lend(&mut self) -> Pile
        ensures blank { result.items ≡ [] }
        ensures room { vec_capacity result ≡ self.old }
    {
        replace(&mut self.pile, Pile::new(self.alloc))
    }

    // A pile without cells comes back, with its room.
    fn take_back(&mut self, pile: Pile)
        requires { pile.items ≡ [] }
        ensures { self.new ≡ vec_capacity pile }
    {
        self.pile = pile;
    }
}

/// Takes these classes, which ascend, or none: where one is found taken, those taken before are put back as they were. It does not
/// wait, and takes no memory: the pile has the room.
pub fn take_all(seat: &mut Seat, classes: &[u32], room: &mut Room) -> Result<Pile, Busy>
    requires rests { seat.old.view.held ≡ [] }
    requires room { length classes.now ≤ room.old }
    requires ascend { IsStrictlyIncreasing classes.now }
    requires there { All (λ class. class < length seat.old.view.starts) classes.now }
    ensures lot { seat.new.lot ≡ seat.old.lot }
    ensures ok { IfOk result (λ pile. HasTaken classes.now seat.old.view seat.new.view pile.items) }
    ensures busy { OnErr result (HasLooked seat.old.view seat.new.view × (seat.new.view.held ≡ [])) }
    ensures tries { HasMoreTries seat.old.view seat.new.view }
    ensures found { OnErr result (FoundTaken classes.now seat.old.view seat.new.view) }
    ensures lent { IfOk result (λ pile. vec_capacity pile ≡ room.old) }
    ensures back { OnErr result (room.new ≡ room.old) }
{
    let mut pile = room.lend();
    match take_each(seat, classes, &mut pile) {
        Ok(()) => Ok(pile),
        Err(Busy) => {
            room.take_back(pile);
            Err(Busy)
        }
    }
}

/// Puts all cells of a pile, the last taken first, and frees their classes. The room has the pile's room again. It does not wait, and
/// takes no memory.
pub fn put_all(seat: &mut Seat, pile: Pile, room: &mut Room)
    requires { IsPile seat.old.view pile.items }
    ensures lot { seat.new.lot ≡ seat.old.lot }
    ensures put { HasPut seat.old.view seat.new.view pile.items }
    ensures takes { seat.new.view.takes ≡ seat.old.view.takes }
    ensures back { room.new ≡ vec_capacity pile }
{
    let mut pile = pile;
    put_each(seat, &mut pile);
    room.take_back(pile);
}

// Takes these classes, or none, into a pile without cells.
fn take_each(seat: &mut Seat, classes: &[u32], pile: &mut Pile) -> Result<(), Busy>
    requires rests { seat.old.view.held ≡ [] }
    requires blank { pile.old.items ≡ [] }
    requires room { length classes.now ≤ vec_capacity pile.old }
    requires ascend { IsStrictlyIncreasing classes.now }
    requires there { All (λ class. class < length seat.old.view.starts) classes.now }
    ensures lot { seat.new.lot ≡ seat.old.lot }
    ensures ok { OnOk result (HasTaken classes.now seat.old.view seat.new.view pile.new.items) }
    ensures busy { OnErr result (HasLooked seat.old.view seat.new.view × (seat.new.view.held ≡ []) × (pile.new.items ≡ [])) }
    ensures tries { HasMoreTries seat.old.view seat.new.view }
    ensures found { OnErr result (FoundTaken classes.now seat.old.view seat.new.view) }
    ensures same { vec_capacity pile.new ≡ vec_capacity pile.old }
{
    for class in classes {
        match seat.try_take(*class) {
            Ok(cell) => pile.push_reserved((*class, cell)),
            Err(Busy) => {
                put_each(seat, pile);
                return Err(Busy);
            }
        }
    }
    Ok(())
}

// Puts all cells of a pile, the last taken first.
fn put_each(seat: &mut Seat, pile: &mut Pile)
    requires { IsPile seat.old.view pile.old.items }
    ensures lot { seat.new.lot ≡ seat.old.lot }
    ensures put { HasPut seat.old.view seat.new.view pile.old.items }
    ensures blank { pile.new.items ≡ [] }
    ensures takes { seat.new.view.takes ≡ seat.old.view.takes }
    ensures same { vec_capacity pile.new ≡ vec_capacity pile.old }
{
    while let Some((class, cell)) = pile.pop() {
        seat.put(class, cell);
    }
}
