// The two ends of a bounded queue of rows of one width, of which the values alone are kept. A row is sent with one store, and so is
// there whole or not at all.
ghost use Rattle.std.specs.Prelude.{◌≡◌, ◌+◌, ◌<◌, ◌≤◌, [], ◌∷◌, ◌++◌, length, take, IsTrue, IsFalse, IfOk};
ghost use Rattle.river_rings.specs.Ends.{AreEnds, SameSending, SameTaking, IsFullRing, HasRingRoom, HasSeenTaken, HasSeen};
ghost use Rattle.river_rings.specs.Rows.{AreWhole, row_item, rows_in};
ghost use Rattle.rtrb.specs.Ring.{received, known_items, SameConsumer, ConsumerLooked};
ghost use mathlib.Core.List.{IsPrefix};

use crate::lots::Lot;
use river_base::NoMemory;
use rtrb::{Consumer, RingBuffer};
use std::alloc::Global;
use std::marker::Model;

/// How many rows go with one store at most.
const LOT: usize = 16;

/// The end that sends rows. Some may wait in it: they are sent, but the taking end sees them after `flush` alone, or after as many more.
#[derive(Drop)]
pub struct RowFeed {
    end: Lot,
    width: usize,
}

/// The end that takes rows.
#[derive(Drop)]
pub struct RowTake {
    end: Consumer<i64>,
    width: usize,
}

impl Model for RowFeed {
    ghost use Rattle.std.specs.Prelude.{◌≤◌};
    ghost use Rattle.river_rings.specs.Ends.{Sending};
    ghost use Rattle.river_rings.specs.Rows.{AreWhole, row_sending};

    ghost Value = { Sending };

    ghost view = { λ f. row_sending f.width f.end };

    ghost invariant = { λ f. AreWhole f.width f.end.sent × (f.end.free ≤ f.end.capacity) };
}

impl Model for RowTake {
    ghost use Rattle.rtrb.specs.Ring.{received};
    ghost use Rattle.river_rings.specs.Ends.{Taking};
    ghost use Rattle.river_rings.specs.Rows.{AreWhole, row_taking};

    ghost Value = { Taking };

    ghost view = { λ t. row_taking t.width t.end };

    ghost invariant = { λ t. AreWhole t.width (received t.end) };
}

/// The two ends of an empty ring that holds at most `cap` rows of `width` values each.
pub fn ring_of_rows(alloc: Global, width: u32, cap: u32) -> Result<(RowFeed, RowTake), NoMemory>
    requires width { (1 ≤ width) × (width ≤ 16) }
    requires cap { (1 ≤ cap) × (cap ≤ 65536) }
    ensures ends { IfOk result (λ r. AreEnds r.0 r.1) }
    ensures feed { IfOk result (λ r. (r.0.cap ≡ cap) × (r.0.sent ≡ []) × (r.0.waiting ≡ 0)) }
    ensures take { IfOk result (λ r. (r.1.cap ≡ cap) × (r.1.received ≡ []) × (r.1.known ≡ [])) }
    ensures width { IfOk result (λ r. r.0.id.width ≡ width) }
{
    let width = width as usize;
    let (feed, take) = RingBuffer::new(alloc, cap as usize * width)?;
    let feed = RowFeed {
        end: Lot::new(alloc, feed, lot_of(cap) * width)?,
        width,
    };
    let take = RowTake { end: take, width };
    Ok((feed, take))
}

// How many rows go with one store at most: 16, and no more than half of what a ring holds.
fn lot_of(cap: u32) -> usize
    ensures { result ≤ 16 }
{
    ((cap / 2) as usize).min(LOT)
}

// Whether so many values are there.
fn has_values(end: &mut Consumer<i64>, count: usize) -> bool
    ensures looked { ConsumerLooked end.old end.new }
    ensures yes { IsTrue result → count ≤ length (known_items end.new) }
    ensures no { IsFalse result → length (known_items end.new) < count }
{
    end.cached_slots() >= count || end.slots() >= count
}

// Takes as many values as `row` has, which are known to be there.
fn next_values(end: &mut Consumer<i64>, row: &mut [i64])
    requires { length row.old ≤ length (known_items end.old) }
    ensures ring { SameConsumer end.old end.new }
    ensures received { received end.new ≡ received end.old ++ row.new }
    ensures known { IsPrefix (known_items end.old) (row.new ++ known_items end.new) }
{
    if row.len() == 1 {
        row[0] = end.pop_known();
        return;
    }
    match end.pop_entire_slice(row) {
        Ok(()) => {}
        Err(_few) => unreachable!(),
    }
}

impl RowFeed {
    /// How many values its rows have, 1 to 16.
    pub fn width(&self) -> usize
        ensures width { result ≡ self.now.id.width }
        ensures some { 1 ≤ result }
        ensures at_most { result ≤ 16 }
    {
        self.width
    }

    /// Whether the next row can be sent: so it is, unless the rows sent and not known to be taken are as many as the ring holds.
    pub fn has_room(&mut self) -> bool
        ensures seen { HasSeenTaken self.old self.new }
        ensures yes { IsTrue result → HasRingRoom self.new }
        ensures no { IsFalse result → IsFullRing self.new }
    {
        self.end.has_slots(self.width)
    }

    /// For how many rows the ring has room, for all that is known. It does not look.
    pub fn room(&self) -> usize
        ensures { result + self.now.waiting ≡ self.now.cap }
    {
        self.end.free() / self.width
    }

    /// What waits goes: the taking end may see it from then on. It takes no memory.
    pub fn flush(&mut self)
        ensures { HasSeenTaken self.old self.new }
    {
        self.end.flush();
    }

    /// Sends a row of these values, where the ring has room for it. They are as many as each of its rows has.
    pub fn put(&mut self, row: &[i64])
        requires room { HasRingRoom self.old }
        requires width { 1 ≤ self.old.id.width → length row.now ≡ self.old.id.width }
        ensures ring { SameSending self.old self.new }
        ensures sent { (self.new.sent ≡ self.old.sent ++ row_item row.now ∷ []) × (self.new.waiting ≤ self.old.waiting + 1) }
    {
        self.end.put(row);
    }
}

impl RowTake {
    /// How many values its rows have, 1 to 16.
    pub fn width(&self) -> usize
        ensures width { result ≡ self.now.id.width }
        ensures some { 1 ≤ result }
        ensures at_most { result ≤ 16 }
    {
        self.width
    }

    /// Whether a row is there: so it is, unless every row known to be sent was received.
    pub fn ready(&mut self) -> bool
        ensures seen { HasSeen self.old self.new }
        ensures yes { IsTrue result → 0 < length self.new.known }
        ensures no { IsFalse result → self.new.known ≡ [] }
    {
        has_values(&mut self.end, self.width)
    }

    /// The values of the next row in the order sent, where one is known to be there; they are written to `row`, which is as long.
    pub fn next(&mut self, row: &mut [i64])
        requires known { 0 < length self.old.known }
        requires width { length row.old ≡ self.old.id.width }
        ensures ring { SameTaking self.old self.new }
        ensures received { self.new.received ≡ self.old.received ++ row_item row.new ∷ [] }
        ensures known { IsPrefix self.old.known (row_item row.new ∷ self.new.known) }
    {
        next_values(&mut self.end, row);
    }

    /// The values of the next rows in the order sent, of which one is known to be there: of as many as are there now and have room in
    /// `rows`. They are written to the front of it; says how many values they are.
    pub fn next_rows(&mut self, rows: &mut [i64]) -> usize
        requires known { 0 < length self.old.known }
        requires room { self.old.id.width ≤ length rows.old }
        ensures ring { SameTaking self.old self.new }
        ensures some { 1 ≤ result }
        ensures within { (result ≤ length rows.new) × (length rows.new ≡ length rows.old) }
        ensures whole { AreWhole self.old.id.width (take result rows.new) }
        ensures received { self.new.received ≡ self.old.received ++ rows_in self.old.id.width (take result rows.new) }
    {
        let there = self.end.slots();
        let most = there.min(rows.len());
        let count = most - most % self.width;
        next_values(&mut self.end, &mut rows[..count]);
        count
    }
}

// The sending end looks: it learns of all that was taken.
fn look_for_room(feed: &mut RowFeed, take: &mut RowTake)
    requires { AreEnds feed.old take.old }
    ensures feed { HasSeenTaken feed.old feed.new }
    ensures take { HasSeen take.old take.new }
    ensures room { feed.new.waiting + length take.new.received ≤ length feed.new.sent }
{
    feed.end.look_beside(&mut take.end);
}

// The taking end looks: it learns of all that was sent.
fn look_for_rows(feed: &mut RowFeed, take: &mut RowTake)
    requires { AreEnds feed.old take.old }
    ensures feed { HasSeenTaken feed.old feed.new }
    ensures take { HasSeen take.old take.new }
    ensures ends { take.new.cap ≡ feed.new.cap }
    ensures order { take.new.received ++ take.new.known ≡ feed.new.sent }
    ensures bound { length take.new.known ≤ take.new.cap }
{
    feed.end.show_beside(&mut take.end);
}

/// Both ends of one ring of rows look, as those of a ring of items do: afterwards the taking end knows all that was sent, and the
/// sending end all that was taken.
#[tactic(auto, using(crate::proofs::Looks::looked_twice, crate::proofs::Looks::seen_twice))]
pub fn rows_beside(feed: &mut RowFeed, take: &mut RowTake)
    requires { AreEnds feed.old take.old }
    ensures ends { AreEnds feed.new take.new × (take.new.cap ≡ feed.new.cap) }
    ensures feed { HasSeenTaken feed.old feed.new }
    ensures take { HasSeen take.old take.new }
    ensures order { take.new.received ++ take.new.known ≡ feed.new.sent }
    ensures bound { length take.new.known ≤ take.new.cap }
    ensures room { feed.new.waiting ≤ length take.new.known }
{
    look_for_room(feed, take);
    look_for_rows(feed, take);
}
