// The two ends of a bounded queue of items. Each may move to a thread of its own; no call of theirs waits or takes memory.
ghost use Rattle.std.specs.Prelude.{◌≡◌, ◌+◌, ◌<◌, ◌≤◌, [], ◌∷◌, ◌++◌, length, IsTrue, IsFalse, IfOk, OnOk, IfErr, IfSome, IfNone, IsOk, IsSome};
ghost use Rattle.river_rings.specs.Ends.{AreEnds, SameSending, SameTaking, IsFullRing, HasRingRoom, HasSeenTaken, HasSeen};
ghost use mathlib.Core.List.{IsPrefix};

use river_base::{Item, NoMemory};
use rtrb::{Consumer, Producer, PushError, RingBuffer};
use std::alloc::Global;
use std::marker::Model;

/// The end that sends.
#[derive(Drop)]
pub struct Feed {
    end: Producer<Item>,
}

/// The end that takes.
#[derive(Drop)]
pub struct Take {
    end: Consumer<Item>,
}

impl Model for Feed {
    ghost use Rattle.river_rings.specs.Ends.{Sending, sending_of};

    ghost Value = { Sending };

    ghost view = { λ f. sending_of f.end };
}

impl Model for Take {
    ghost use Rattle.river_rings.specs.Ends.{Taking, taking_of};

    ghost Value = { Taking };

    ghost view = { λ t. taking_of t.end };
}

/// The two ends of an empty ring that holds at most `cap` items.
pub fn ring(alloc: Global, cap: u32) -> Result<(Feed, Take), NoMemory>
    requires { (1 ≤ cap) × (cap ≤ 65536) }
    ensures ends { IfOk result (λ r. AreEnds r.0 r.1) }
    ensures feed { IfOk result (λ r. (r.0.cap ≡ cap) × (r.0.sent ≡ []) × (r.0.waiting ≡ 0)) }
    ensures take { IfOk result (λ r. (r.1.cap ≡ cap) × (r.1.received ≡ []) × (r.1.known ≡ [])) }
{
    let (feed, take) = RingBuffer::new(alloc, cap as usize)?;
    Ok((Feed { end: feed }, Take { end: take }))
}

impl Feed {
    /// How many values each item has, as a row of a ring of rows has: 0, since it may be any.
    pub fn width(&self) -> usize
        ensures width { result ≡ self.now.id.width }
        ensures any { result ≡ 0 }
    {
        let _end = &self.end;
        0
    }

    /// Sends the item. It is handed back only where the items sent and not known to be taken are as many as the ring holds.
    pub fn push(&mut self, item: Item) -> Result<(), Item>
        ensures ring { SameSending self.old self.new }
        ensures sent { OnOk result ((self.new.sent ≡ self.old.sent ++ item ∷ []) × (self.new.waiting ≤ self.old.waiting + 1)) }
        ensures refused { IfErr result (λ back. (back ≡ item) × (self.new.sent ≡ self.old.sent) × IsFullRing self.new) }
        ensures succeeds { HasRingRoom self.old → IsOk result }
    {
        match self.end.push(item) {
            Ok(()) => Ok(()),
            Err(PushError::Full(back)) => Err(back),
        }
    }

    /// Whether the next push is taken: so it is, unless the items sent and not known to be taken are as many as the ring holds.
    pub fn has_room(&mut self) -> bool
        ensures seen { HasSeenTaken self.old self.new }
        ensures yes { IsTrue result → HasRingRoom self.new }
        ensures no { IsFalse result → IsFullRing self.new }
    {
        !self.end.is_full()
    }

    /// Sends the item, where the ring has room for it.
    pub fn put(&mut self, item: Item)
        requires { HasRingRoom self.old }
        ensures ring { SameSending self.old self.new }
        ensures sent { (self.new.sent ≡ self.old.sent ++ item ∷ []) × (self.new.waiting ≤ self.old.waiting + 1) }
    {
        self.end.push_reserved(item);
    }
}

impl Take {
    /// How many values each item has, as a row of a ring of rows has: 0, since it may be any.
    pub fn width(&self) -> usize
        ensures width { result ≡ self.now.id.width }
        ensures any { result ≡ 0 }
    {
        let _end = &self.end;
        0
    }

    /// Whether the next pop gives an item: so it is, unless every item known to be sent was received.
    pub fn ready(&mut self) -> bool
        ensures seen { HasSeen self.old self.new }
        ensures yes { IsTrue result → 0 < length self.new.known }
        ensures no { IsFalse result → self.new.known ≡ [] }
    {
        !self.end.is_empty()
    }

    /// The next item in the order sent. None only where every item known to be sent was received.
    pub fn pop(&mut self) -> Option<Item>
        ensures ring { SameTaking self.old self.new }
        ensures some { IfSome result (λ item. (self.new.received ≡ self.old.received ++ item ∷ []) × IsPrefix self.old.known (item ∷ self.new.known)) }
        ensures none { IfNone result ((self.new.received ≡ self.old.received) × (self.new.known ≡ [])) }
        ensures succeeds { 0 < length self.old.known → IsSome result }
    {
        self.end.pop().ok()
    }

    /// The next item in the order sent, where one is known to be there.
    pub fn next(&mut self) -> Item
        requires { 0 < length self.old.known }
        ensures ring { SameTaking self.old self.new }
        ensures received { self.new.received ≡ self.old.received ++ result ∷ [] }
        ensures known { self.old.known ≡ result ∷ self.new.known }
    {
        self.end.pop_known()
    }
}

// The sending end looks: it learns of all that was taken.
fn look_for_room(feed: &mut Feed, take: &mut Take)
    requires { AreEnds feed.old take.old }
    ensures feed { HasSeenTaken feed.old feed.new }
    ensures take { HasSeen take.old take.new }
    ensures room { feed.new.waiting + length take.new.received ≤ length feed.new.sent }
{
    feed.end.slots_beside(&mut take.end);
}

// The taking end looks: it learns of all that was sent.
fn look_for_items(feed: &mut Feed, take: &mut Take)
    requires { AreEnds feed.old take.old }
    ensures feed { HasSeenTaken feed.old feed.new }
    ensures take { HasSeen take.old take.new }
    ensures ends { take.new.cap ≡ feed.new.cap }
    ensures order { take.new.received ++ take.new.known ≡ feed.new.sent }
    ensures bound { length take.new.known ≤ take.new.cap }
{
    take.end.slots_beside(&mut feed.end);
}

/// Both ends of one ring look, for a thread that holds both: nothing is sent or taken. Afterwards the taking end knows all that was
/// sent, and the sending end all that was taken: no more items wait, for all it knows, than are there.
#[tactic(auto, using(crate::proofs::Looks::looked_twice, crate::proofs::Looks::seen_twice))]
pub fn beside(feed: &mut Feed, take: &mut Take)
    requires { AreEnds feed.old take.old }
    ensures ends { AreEnds feed.new take.new × (take.new.cap ≡ feed.new.cap) }
    ensures feed { HasSeenTaken feed.old feed.new }
    ensures take { HasSeen take.old take.new }
    ensures order { take.new.received ++ take.new.known ≡ feed.new.sent }
    ensures bound { length take.new.known ≤ take.new.cap }
    ensures room { feed.new.waiting ≤ length take.new.known }
{
    look_for_room(feed, take);
    look_for_items(feed, take);
}
