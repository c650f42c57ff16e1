// The end of a ring that sends values, of which several go with one store.
ghost use Rattle.std.specs.Prelude.{◌≡◌, ◌+◌, ◌<◌, ◌≤◌, [], ◌++◌, length, IsTrue, IsFalse, IfOk};
ghost use Rattle.river_rings.specs.Ends.{ring_of};
ghost use Rattle.river_rings.specs.Lots.{SameLotted, LotLooked, IsLotPair};
ghost use Rattle.rtrb.specs.Ring.{sent, known_free, producer_capacity, received, known_items, consumer_capacity, SameProducer, ConsumerLooked};

use river_base::NoMemory;
use rtrb::{Consumer, Producer};
use std::alloc::Global;
use std::marker::Model;

/// The end that sends values. Some may wait in it; they count as sent, and the ring has room for them.
#[derive(Drop)]
pub(crate) struct Lot {
    end: Producer<i64>,
    lot: Vec<i64>,
}

impl Model for Lot {
    ghost use Rattle.std.specs.Prelude.{◌≤◌, length};
    ghost use Rattle.rtrb.specs.Ring.{known_free};
    ghost use Rattle.river_rings.specs.Lots.{Lotted, lotted};

    ghost Value = { Lotted };

    ghost view = { λ l. lotted l.end l.lot.items };

    ghost invariant = { λ l. length l.lot.items ≤ known_free l.end };
}

// Sends these values, for which there is room: one store for all, and the short way for a single one.
fn put_values(end: &mut Producer<i64>, row: &[i64])
    requires { length row.now ≤ known_free end.old }
    ensures ring { SameProducer end.old end.new }
    ensures sent { sent end.new ≡ sent end.old ++ row.now }
    ensures free { known_free end.old ≤ known_free end.new + length row.now }
{
    if row.len() == 1 {
        end.push_reserved(row[0]);
        return;
    }
    match end.push_entire_slice(row) {
        Ok(()) => {}
        Err(_few) => unreachable!(),
    }
}

impl Lot {
    /// An end that sends so many values with one store, or fewer; where the number is 0 each row by itself.
    pub fn new(alloc: Global, end: Producer<i64>, most: usize) -> Result<Lot, NoMemory>
        ensures ring { IfOk result (λ l. l.ring ≡ ring_of 0 end.end) }
        ensures capacity { IfOk result (λ l. l.capacity ≡ producer_capacity end) }
        ensures sent { IfOk result (λ l. l.sent ≡ sent end) }
        ensures free { IfOk result (λ l. l.free ≡ known_free end) }
    {
        let lot = Vec::with_capacity(alloc, most)?;
        Ok(Lot { end, lot })
    }

    /// How many places are free, for all that is known.
    #[tactic(auto, using(crate::proofs::LotLemmas::lot_most))]
    pub fn free(&self) -> usize
        ensures free { result ≡ self.now.free }
        ensures most { self.now.free ≤ self.now.capacity }
    {
        self.end.cached_slots() - self.lot.len()
    }

    /// What waits goes. It is seen by the other end from then on.
    #[tactic(auto, using(crate::proofs::LotLemmas::lot_most))]
    pub fn flush(&mut self)
        ensures looked { LotLooked self.old self.new }
        ensures most { self.new.free ≤ self.new.capacity }
    {
        if self.lot.is_empty() {
            return;
        }
        put_values(&mut self.end, self.lot.as_slice());
        self.lot.clear();
    }

    /// Whether so many places are free. Where they are not, what waits goes.
    #[tactic(auto, using(crate::proofs::LotLemmas::lot_most))]
    pub fn has_slots(&mut self, count: usize) -> bool
        ensures looked { LotLooked self.old self.new }
        ensures yes { IsTrue result → count ≤ self.new.free }
        ensures no { IsFalse result → self.new.free < count }
        ensures most { self.new.free ≤ self.new.capacity }
    {
        if self.end.cached_slots() - self.lot.len() >= count {
            return true;
        }
        self.flush();
        self.look(count)
    }

    // The same, where it looks at the ring.
    #[tactic(auto, using(crate::proofs::LotLemmas::lot_most))]
    fn look(&mut self, count: usize) -> bool
        ensures looked { LotLooked self.old self.new }
        ensures yes { IsTrue result → count ≤ self.new.free }
        ensures no { IsFalse result → self.new.free < count }
        ensures most { self.new.free ≤ self.new.capacity }
    {
        let slots = self.end.slots();
        slots - self.lot.len() >= count
    }

    /// Sends these values, for which there is room. They wait for others where there is room for them to wait; as soon as there is none
    /// for as many more, all go.
    #[tactic(auto, using(crate::proofs::LotLemmas::lot_most))]
    pub fn put(&mut self, row: &[i64])
        requires { length row.now ≤ self.old.free }
        ensures ring { SameLotted self.old self.new }
        ensures sent { self.new.sent ≡ self.old.sent ++ row.now }
        ensures free { self.old.free ≤ self.new.free + length row.now }
        ensures most { self.new.free ≤ self.new.capacity }
    {
        if self.lot.capacity() - self.lot.len() < row.len() {
            self.put_alone(row);
            return;
        }
        self.put_behind(row);
        if self.lot.capacity() - self.lot.len() < row.len() {
            self.flush();
        }
    }

    // Sends these values behind what waits.
    #[tactic(auto, using(crate::proofs::LotLemmas::lot_most))]
    fn put_behind(&mut self, row: &[i64])
        requires { length row.now ≤ self.old.free }
        ensures ring { SameLotted self.old self.new }
        ensures sent { self.new.sent ≡ self.old.sent ++ row.now }
        ensures free { self.old.free ≤ self.new.free + length row.now }
        ensures most { self.new.free ≤ self.new.capacity }
    {
        if self.lot.extend_from_slice(row).is_err() {
            self.put_alone(row);
        }
    }

    // What waits goes, and then these values.
    #[tactic(auto, using(crate::proofs::LotLemmas::lot_most))]
    fn put_alone(&mut self, row: &[i64])
        requires { length row.now ≤ self.old.free }
        ensures ring { SameLotted self.old self.new }
        ensures sent { self.new.sent ≡ self.old.sent ++ row.now }
        ensures free { self.old.free ≤ self.new.free + length row.now }
        ensures most { self.new.free ≤ self.new.capacity }
    {
        if !self.lot.is_empty() {
            put_values(&mut self.end, self.lot.as_slice());
            self.lot.clear();
        }
        put_values(&mut self.end, row);
    }

    /// What waits goes, and this end learns of all that was taken.
    #[tactic(auto, using(crate::proofs::LotLemmas::lot_most))]
    pub fn look_beside(&mut self, take: &mut Consumer<i64>)
        requires { IsLotPair self.old take.old }
        ensures looked { LotLooked self.old self.new }
        ensures most { self.new.free ≤ self.new.capacity }
        ensures take { ConsumerLooked take.old take.new }
        ensures free { self.new.free + length self.new.sent ≡ self.new.capacity + length (received take.new) }
    {
        if !self.lot.is_empty() {
            put_values(&mut self.end, self.lot.as_slice());
            self.lot.clear();
        }
        self.end.slots_beside(take);
    }

    /// What waits goes, and the other end learns of all that was sent.
    #[tactic(auto, using(crate::proofs::LotLemmas::lot_most))]
    pub fn show_beside(&mut self, take: &mut Consumer<i64>)
        requires { IsLotPair self.old take.old }
        ensures looked { LotLooked self.old self.new }
        ensures most { self.new.free ≤ self.new.capacity }
        ensures take { ConsumerLooked take.old take.new }
        ensures capacity { consumer_capacity take.new ≡ self.new.capacity }
        ensures order { received take.new ++ known_items take.new ≡ self.new.sent }
    {
        if !self.lot.is_empty() {
            put_values(&mut self.end, self.lot.as_slice());
            self.lot.clear();
        }
        take.slots_beside(&mut self.end);
    }
}
