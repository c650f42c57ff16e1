// The ends of an operator's queues.
ghost use Rattle.std.specs.Prelude.{◌≡◌, ◌+◌, ◌<◌, ◌≤◌, ℕ, [], ◌∷◌, ◌++◌, length, take, IsTrue, IsFalse, true, IfOk, OnOk, OnErr, IfSome, Some, slice_get, slice_index_or};
ghost use Rattle.river_base.specs.Places.{append_at, list_at};
ghost use Rattle.fire_tasks.specs.Inlet.{TakesFrom, Given};
ghost use Rattle.fire_tasks.specs.Outlet.{SendsTo, Stored};
ghost use Rattle.fire_tasks.specs.Ports.{Flushed, received_of, known_of, in_end, in_ends, sent_of, sent_in, sent_count, IsFull, HasRoom, out_end, out_ends, received_in, HasSentFront, SentAt, ring_width, IsRowOf, IsPair, IsSettled, IsStored, MaySend, MaySendAll};
ghost use Rattle.river_base.specs.WideRows.{rows_type};
ghost use Rattle.river_rings.specs.Ends.{SameSending, SameTaking, HasRingRoom};
ghost use Rattle.river_rings.specs.Rows.{AreWhole, row_item, rows_in};

use brooklet_step::Lines;
use kern_rows::ItemLine;
use river_base::{Flat, FlatType, Item, Listed, NoMemory, QueueType, Row};
use river_rings::{Feed, RowFeed, RowTake, Take, beside, rows_beside};
use std::alloc::Global;
use std::marker::Model;
use std::mem::replace;

/// Where an operator takes from: a ring of items or of rows, or the whole list of an input of the plan.
#[derive(Drop)]
pub struct Inlet {
    end: InletEnd,
}

#[derive(Drop)]
enum InletEnd {
    Items(Take),
    Rows(RowTake),
    Kept(Kept),
}

// A kept list, and how many of its items were taken.
#[derive(Drop)]
struct Kept {
    line: ItemLine,
    taken: usize,
}

/// Where an operator sends to: a ring of items or of rows, or a list of an output or of a queue that nobody reads.
#[derive(Drop)]
pub struct Outlet {
    end: OutletEnd,
}

#[derive(Drop)]
enum OutletEnd {
    Items(Feed),
    Rows(RowFeed),
    Kept(ItemLine),
}

impl Model for Inlet {
    ghost use Rattle.fire_tasks.specs.Inlet as inlet;

    ghost Value = { inlet.Inlet };

    ghost view = { λ i. inlet.inlet_of i.end };
}

impl Model for Outlet {
    ghost use Rattle.fire_tasks.specs.Outlet as outlet;

    ghost Value = { outlet.Outlet };

    ghost view = { λ o. outlet.outlet_of o.end };
}

impl Inlet {
    /// The end of a ring of items.
    pub fn of_items(take: Take) -> Inlet
        ensures { result ≡ TakesFrom take }
    {
        Inlet {
            end: InletEnd::Items(take),
        }
    }

    /// The end of a ring of rows.
    pub fn of_rows(take: RowTake) -> Inlet
        ensures { result ≡ TakesFrom take }
    {
        Inlet {
            end: InletEnd::Rows(take),
        }
    }

    /// The whole list of an input, of which nothing is taken.
    pub fn kept(line: ItemLine) -> Inlet
        ensures { result ≡ Given (record { line = line; taken = 0 }) }
    {
        Inlet {
            end: InletEnd::Kept(Kept { line, taken: 0 }),
        }
    }

    /// Whether an item is there: so it is, unless every item known to be there was received.
    pub(crate) fn ready(&mut self) -> bool
        ensures same { in_end self.new ≡ in_end self.old }
        ensures received { received_of self.new ≡ received_of self.old }
        ensures yes { IsTrue result → 0 < length (known_of self.new) }
        ensures no { IsFalse result → known_of self.new ≡ [] }
        ensures known { IsFalse result → known_of self.old ≡ [] }
    {
        match &mut self.end {
            InletEnd::Items(take) => take.ready(),
            InletEnd::Rows(take) => take.ready(),
            InletEnd::Kept(kept) => kept.line.has(kept.taken),
        }
    }

    /// Takes the next item, which is known to be there, where it is a row of as many values as `row` and is kept as these; they are
    /// written to `row`. Where it is not, nothing is received.
    pub(crate) fn pop_row(&mut self, row: &mut [i64]) -> bool
        requires { 0 < length (known_of self.old) }
        ensures same { in_end self.new ≡ in_end self.old }
        ensures received { IsTrue result → received_of self.new ≡ received_of self.old ++ row_item row.new ∷ [] }
        ensures none { IsFalse result → self.new ≡ self.old }
    {
        match &mut self.end {
            InletEnd::Items(_) => false,
            InletEnd::Rows(take) => next_row(take, row),
            InletEnd::Kept(kept) => kept_row(kept, row),
        }
    }

    /// Takes the next items, of which one is known to be there, where they are rows of `width` values that are kept as these: as many as
    /// are there and have room in `rows`. Their values are written to the front of it; says how many these are. Where it is 0 nothing is
    /// received.
    pub(crate) fn pop_rows(&mut self, width: usize, rows: &mut [i64]) -> usize
        requires known { 0 < length (known_of self.old) }
        requires some { 1 ≤ width }
        requires at_most { width ≤ 16 }
        requires room { width ≤ length rows.old }
        ensures same { in_end self.new ≡ in_end self.old }
        ensures within { (result ≤ length rows.new) × (length rows.new ≡ length rows.old) }
        ensures whole { AreWhole width (take result rows.new) }
        ensures received { received_of self.new ≡ received_of self.old ++ rows_in width (take result rows.new) }
        ensures none { result ≡ 0 → self.new ≡ self.old }
    {
        match &mut self.end {
            InletEnd::Items(_) => 0,
            InletEnd::Rows(take) => next_rows(take, width, rows),
            InletEnd::Kept(kept) => kept_rows(kept, width, rows),
        }
    }

    /// The next item in the order sent, which is known to be there.
    pub(crate) fn pop(&mut self, alloc: Global) -> Result<Item, NoMemory>
        requires { 0 < length (known_of self.old) }
        ensures same { in_end self.new ≡ in_end self.old }
        ensures received { IfOk result (λ x. received_of self.new ≡ received_of self.old ++ x ∷ []) }
    {
        match &mut self.end {
            InletEnd::Items(take) => Ok(take.next()),
            InletEnd::Rows(take) => Ok(next_item(take)),
            InletEnd::Kept(kept) => next_kept(alloc, kept),
        }
    }
}

// Takes the next row of a ring, where it has as many values as `row`.
fn next_row(take: &mut RowTake, row: &mut [i64]) -> bool
    requires { 0 < length take.old.known }
    ensures ring { SameTaking take.old take.new }
    ensures received { IsTrue result → take.new.received ≡ take.old.received ++ row_item row.new ∷ [] }
    ensures none { IsFalse result → take.new ≡ take.old }
{
    if take.width() != row.len() {
        return false;
    }
    take.next(row);
    true
}

// Takes the next rows of a ring, where each has `width` values; says how many values they are.
fn next_rows(end: &mut RowTake, width: usize, rows: &mut [i64]) -> usize
    requires known { 0 < length end.old.known }
    requires some { 1 ≤ width }
    requires at_most { width ≤ 16 }
    requires room { width ≤ length rows.old }
    ensures ring { SameTaking end.old end.new }
    ensures within { (result ≤ length rows.new) × (length rows.new ≡ length rows.old) }
    ensures whole { AreWhole width (take result rows.new) }
    ensures received { end.new.received ≡ end.old.received ++ rows_in width (take result rows.new) }
    ensures none { result ≡ 0 → end.new ≡ end.old }
{
    if end.width() != width {
        return 0;
    }
    end.next_rows(rows)
}

// The next row of a ring, as an item.
fn next_item(take: &mut RowTake) -> Item
    requires { 0 < length take.old.known }
    ensures ring { SameTaking take.old take.new }
    ensures received { take.new.received ≡ take.old.received ++ result ∷ [] }
{
    let mut values = [0; 16];
    let width = take.width();
    next_in(take, &mut values[..width])
}

// The same, with room for its values.
fn next_in(take: &mut RowTake, row: &mut [i64]) -> Item
    requires known { 0 < length take.old.known }
    requires width { length row.old ≡ take.old.id.width }
    requires some { 1 ≤ length row.old }
    requires at_most { length row.old ≤ 16 }
    ensures ring { SameTaking take.old take.new }
    ensures received { take.new.received ≡ take.old.received ++ result ∷ [] }
{
    take.next(row);
    Item::Flat(Flat::One(Row::from_slice(row)))
}

// A copy of the next item of a kept list. No memory holds so many items that the count would not do.
fn next_kept(alloc: Global, kept: &mut Kept) -> Result<Item, NoMemory>
    requires { kept.old.taken < length kept.old.line }
    ensures same { kept.new.line ≡ kept.old.line }
    ensures taken { IfOk result (λ x. take kept.new.taken kept.new.line ≡ take kept.old.taken kept.old.line ++ x ∷ []) }
{
    let Some(next) = kept.taken.checked_add(1) else {
        return Err(NoMemory);
    };
    let item = kept.line.copy_at(alloc, kept.taken)?;
    kept.taken = next;
    Ok(item)
}

// Takes the next item of a kept list, where it is a row of as many values as `row` and is kept as these.
fn kept_row(kept: &mut Kept, row: &mut [i64]) -> bool
    requires { kept.old.taken < length kept.old.line }
    ensures same { kept.new.line ≡ kept.old.line }
    ensures taken { IsTrue result → take kept.new.taken kept.new.line ≡ take kept.old.taken kept.old.line ++ row_item row.new ∷ [] }
    ensures none { IsFalse result → kept.new ≡ kept.old }
{
    let Some(after) = kept.taken.checked_add(1) else {
        return false;
    };
    if !copy_row(&kept.line, kept.taken, row) {
        return false;
    }
    kept.taken = after;
    true
}

// Takes the next items of a kept list, for as long as they are rows of `width` values that are kept as these and have room in `rows`;
// says how many values they are.
fn kept_rows(kept: &mut Kept, width: usize, rows: &mut [i64]) -> usize
    requires some { 1 ≤ width }
    requires at_most { width ≤ 16 }
    ensures same { kept.new.line ≡ kept.old.line }
    ensures within { (result ≤ length rows.new) × (length rows.new ≡ length rows.old) }
    ensures whole { AreWhole width (take result rows.new) }
    ensures taken { take kept.new.taken kept.new.line ≡ take kept.old.taken kept.old.line ++ rows_in width (take result rows.new) }
    ensures none { result ≡ 0 → kept.new ≡ kept.old }
{
    let mut count = 0;
    for _row in 0..rows.len() {
        if rows.len() - count < width || !kept.line.has(kept.taken) {
            return count;
        }
        if !kept_row(kept, &mut rows[count..count + width]) {
            return count;
        }
        count += width;
    }
    count
}

// Copies the row at a place of a line, where there is one of as many values as `row` that is kept as these.
fn copy_row(line: &ItemLine, place: usize, row: &mut [i64]) -> bool
    ensures { IsTrue result → slice_get line.now place ≡ Some (row_item row.new) }
{
    let Some(values) = line.row_at(place) else {
        return false;
    };
    if values.len() != row.len() {
        return false;
    }
    row.copy_from_slice(values);
    true
}

impl Outlet {
    /// The end of a ring of items.
    pub fn of_items(feed: Feed) -> Outlet
        ensures is { result ≡ SendsTo feed }
        ensures any { ring_width (out_end result) ≡ 0 }
    {
        feed.width();
        Outlet {
            end: OutletEnd::Items(feed),
        }
    }

    /// The end of a ring of rows.
    pub fn of_rows(feed: RowFeed) -> Outlet
        ensures { result ≡ SendsTo feed }
    {
        Outlet {
            end: OutletEnd::Rows(feed),
        }
    }

    /// An empty list, for what nobody reads.
    pub fn kept(alloc: Global) -> Outlet
        ensures { result ≡ Stored [] }
    {
        Outlet {
            end: OutletEnd::Kept(ItemLine::new(alloc)),
        }
    }

    /// What was kept for nobody to read; nothing is left there.
    pub fn take_line(&mut self, alloc: Global) -> ItemLine
        requires { IsStored self.old }
        ensures { result ≡ sent_of self.old }
    {
        match &mut self.end {
            OutletEnd::Kept(line) => replace(line, ItemLine::new(alloc)),
            _ => unreachable!(),
        }
    }

    /// Whether an item can be sent: so it is, unless a ring holds as many as it may, for all that is known.
    pub(crate) fn has_room(&mut self) -> bool
        ensures same { out_end self.new ≡ out_end self.old }
        ensures sent { sent_of self.new ≡ sent_of self.old }
        ensures yes { IsTrue result → HasRoom self.new }
        ensures no { IsFalse result → IsFull self.new }
        ensures room { HasRoom self.old → IsTrue result }
    {
        match &mut self.end {
            OutletEnd::Items(feed) => feed.has_room(),
            OutletEnd::Rows(feed) => feed.has_room(),
            OutletEnd::Kept(_) => true,
        }
    }

    /// How many rows a turn may take whose firings send here: as many as a ring has room for, for all that is known, and one where this
    /// is not asked. So no more is pending than by turns of one item each, where a firing gives one row. A number without a limit is at
    /// least `most`.
    pub(crate) fn room(&self, most: usize) -> usize {
        match &self.end {
            OutletEnd::Items(_) => 1,
            OutletEnd::Rows(feed) => feed.room(),
            OutletEnd::Kept(_) => most,
        }
    }

    /// What waits in the end of a ring of rows goes: the reader may see it from then on.
    pub(crate) fn flush(&mut self)
        ensures same { out_end self.new ≡ out_end self.old }
        ensures sent { sent_of self.new ≡ sent_of self.old }
    {
        match &mut self.end {
            OutletEnd::Items(_) => {}
            OutletEnd::Rows(feed) => feed.flush(),
            OutletEnd::Kept(_) => {}
        }
    }

    /// Sends an item that may be sent there, where there is room. Where there is no memory nothing is sent.
    pub(crate) fn put(&mut self, item: Item) -> Result<(), NoMemory>
        requires room { HasRoom self.old }
        requires may { MaySend (out_end self.old) item }
        ensures same { out_end self.new ≡ out_end self.old }
        ensures ok { OnOk result (sent_of self.new ≡ sent_of self.old ++ item ∷ []) }
        ensures err { OnErr result (sent_of self.new ≡ sent_of self.old) }
    {
        match &mut self.end {
            OutletEnd::Items(feed) => {
                feed.put(item);
                Ok(())
            }
            OutletEnd::Rows(feed) => {
                put_item(feed, &item);
                Ok(())
            }
            OutletEnd::Kept(line) => line.push(item),
        }
    }

    /// Sends a row of these 1 to 16 values that may be sent there, where there is room. Where there is no memory nothing is sent.
    pub(crate) fn put_row(&mut self, row: &[i64]) -> Result<(), NoMemory>
        requires some { 1 ≤ length row.now }
        requires at_most { length row.now ≤ 16 }
        requires room { HasRoom self.old }
        requires may { MaySend (out_end self.old) (row_item row.now) }
        ensures same { out_end self.new ≡ out_end self.old }
        ensures ok { OnOk result (sent_of self.new ≡ sent_of self.old ++ row_item row.now ∷ []) }
        ensures err { OnErr result (sent_of self.new ≡ sent_of self.old) }
    {
        match &mut self.end {
            OutletEnd::Items(feed) => {
                feed.put(Item::Flat(Flat::One(Row::from_slice(row))));
                Ok(())
            }
            OutletEnd::Rows(feed) => {
                feed.put(row);
                Ok(())
            }
            OutletEnd::Kept(line) => line.push_values(row),
        }
    }
}

// Sends an item to a ring of rows: it is one of these.
fn put_item(feed: &mut RowFeed, item: &Item)
    requires room { HasRingRoom feed.old }
    requires may { 1 ≤ feed.old.id.width → IsRowOf feed.old.id.width item.now }
    ensures ring { SameSending feed.old feed.new }
    ensures sent { (feed.new.sent ≡ feed.old.sent ++ item.now ∷ []) × (feed.new.waiting ≤ feed.old.waiting + 1) }
{
    feed.width();
    match item {
        Item::Flat(Flat::One(row)) => feed.put(row.values()),
        _ => unreachable!(),
    }
}

/// The two ends of a ring look: nothing is sent or taken, and afterwards they know of each other.
pub(crate) fn meet(outlet: &mut Outlet, inlet: &mut Inlet)
    requires { IsPair outlet.old inlet.old }
    ensures settled { IsSettled outlet.new inlet.new }
    ensures outlet { (out_end outlet.new ≡ out_end outlet.old) × (sent_of outlet.new ≡ sent_of outlet.old) }
    ensures inlet { (in_end inlet.new ≡ in_end inlet.old) × (received_of inlet.new ≡ received_of inlet.old) }
{
    match (&mut outlet.end, &mut inlet.end) {
        (OutletEnd::Items(feed), InletEnd::Items(take)) => beside(feed, take),
        (OutletEnd::Rows(feed), InletEnd::Rows(take)) => rows_beside(feed, take),
        // Their widths differ, so these are not the ends of one ring.
        (OutletEnd::Items(feed), InletEnd::Rows(take)) => {
            feed.width();
            take.width();
            unreachable!()
        }
        (OutletEnd::Rows(feed), InletEnd::Items(take)) => {
            feed.width();
            take.width();
            unreachable!()
        }
        _ => unreachable!(),
    }
}

/// Whether an item is there at a port.
#[tactic(auto, using(crate::proofs::PortLemmas::ins_set, crate::proofs::PortLemmas::received_same))]
pub(crate) fn ready_at(ins: &mut Listed<Inlet>, port: usize) -> bool
    requires { port < length ins.old }
    ensures same { in_ends ins.new ≡ in_ends ins.old }
    ensures received { received_in ins.new ≡ received_in ins.old }
    ensures yes { IsTrue result → (d : _) → 0 < length (known_of (slice_index_or ins.new port d)) }
    ensures no { IsFalse result → (d : _) → known_of (slice_index_or ins.new port d) ≡ [] }
    ensures before { IsFalse result → (d : _) → known_of (slice_index_or ins.old port d) ≡ [] }
    ensures others { (i : ℕ) (d : _) → (port ≡ i → ⊥) → slice_index_or ins.new i d ≡ slice_index_or ins.old i d }
    ensures many { length ins.new ≡ length ins.old }
{
    ins.at_mut(port).ready()
}

/// The next item at a port, where one is known to be there.
#[tactic(auto, using(crate::proofs::PortLemmas::ins_set, crate::proofs::PortLemmas::received_more))]
pub(crate) fn pop_at(alloc: Global, ins: &mut Listed<Inlet>, port: usize) -> Result<Item, NoMemory>
    requires there { port < length ins.old }
    requires known { (d : _) → 0 < length (known_of (slice_index_or ins.old port d)) }
    ensures same { in_ends ins.new ≡ in_ends ins.old }
    ensures received { IfOk result (λ x. received_in ins.new ≡ append_at (received_in ins.old) port (x ∷ [])) }
{
    ins.at_mut(port).pop(alloc)
}

/// How many values the rows of a port's queue have, 1 to 16; None where it has no such rows.
pub(crate) fn width_at(kinds: &Listed<QueueType>, port: usize) -> Option<u32>
    ensures kind { IfSome result (λ width. slice_get kinds.now port ≡ Some (rows_type width)) }
    ensures some { IfSome result (λ width. 1 ≤ width) }
    ensures at_most { IfSome result (λ width. width ≤ 16) }
{
    if port >= kinds.len() {
        return None;
    }
    match kinds.at(port) {
        QueueType::Flat(FlatType::Rows(width)) => in_range(*width),
        _ => None,
    }
}

// A width, where it is 1 to 16.
fn in_range(width: u32) -> Option<u32>
    ensures same { IfSome result (λ w. w ≡ width) }
    ensures some { IfSome result (λ w. 1 ≤ w) }
    ensures at_most { IfSome result (λ w. w ≤ 16) }
{
    if 1 <= width && width <= 16 {
        Some(width)
    } else {
        None
    }
}

/// Takes the next item at a port, where one is known to be there and it is a row of as many values as `row`, kept as these; they are
/// written to `row`. Where it is not, nothing is received.
#[tactic(auto, using(crate::proofs::PortLemmas::ins_set, crate::proofs::PortLemmas::received_more))]
pub(crate) fn pop_row_at(ins: &mut Listed<Inlet>, port: usize, row: &mut [i64]) -> bool
    requires there { port < length ins.old }
    requires known { (d : _) → 0 < length (known_of (slice_index_or ins.old port d)) }
    ensures same { in_ends ins.new ≡ in_ends ins.old }
    ensures received { IsTrue result → received_in ins.new ≡ append_at (received_in ins.old) port (row_item row.new ∷ []) }
    ensures none { IsFalse result → ins.new ≡ ins.old }
{
    ins.at_mut(port).pop_row(row)
}

/// How many rows a turn may take whose firings send to these ends: at least one, and at most `most`.
pub(crate) fn room_in(outs: &Listed<Outlet>, most: usize) -> usize
    requires { 1 ≤ most }
    ensures some { 1 ≤ result }
    ensures at_most { result ≤ most }
{
    let mut room = most;
    for port in 0..outs.len() {
        room = room.min(outs.at(port).room(most));
    }
    room.max(1)
}

/// Takes the next items at a port, of which one is known to be there, where they are rows of `width` values that are kept as these: as
/// many as are there and have room in `rows`. Their values are written to the front of it; says how many these are. Where it is 0
/// nothing is received.
#[tactic(auto, using(crate::proofs::PortLemmas::ins_set, crate::proofs::PortLemmas::received_more))]
pub(crate) fn pop_rows_at(
    ins: &mut Listed<Inlet>,
    port: usize,
    width: usize,
    rows: &mut [i64],
) -> usize
    requires there { port < length ins.old }
    requires known { (d : _) → 0 < length (known_of (slice_index_or ins.old port d)) }
    requires some { 1 ≤ width }
    requires at_most { width ≤ 16 }
    requires room { width ≤ length rows.old }
    ensures same { in_ends ins.new ≡ in_ends ins.old }
    ensures within { (result ≤ length rows.new) × (length rows.new ≡ length rows.old) }
    ensures whole { AreWhole width (take result rows.new) }
    ensures received { received_in ins.new ≡ append_at (received_in ins.old) port (rows_in width (take result rows.new)) }
    ensures none { result ≡ 0 → ins.new ≡ ins.old }
{
    ins.at_mut(port).pop_rows(width, rows)
}

// Whether an item can be sent at a port.
#[tactic(auto, using(crate::proofs::PortLemmas::outs_set, crate::proofs::PortLemmas::sent_same))]
fn has_room_at(outs: &mut Listed<Outlet>, port: usize) -> bool
    requires { port < length outs.old }
    ensures same { out_ends outs.new ≡ out_ends outs.old }
    ensures sent { sent_in outs.new ≡ sent_in outs.old }
    ensures yes { IsTrue result → (d : _) → HasRoom (slice_index_or outs.new port d) }
    ensures no { IsFalse result → (d : _) → IsFull (slice_index_or outs.new port d) }
    ensures room { ((d : _) → HasRoom (slice_index_or outs.old port d)) → IsTrue result }
    ensures others { (j : ℕ) (d : _) → (port ≡ j → ⊥) → slice_index_or outs.new j d ≡ slice_index_or outs.old j d }
    ensures many { length outs.new ≡ length outs.old }
{
    outs.at_mut(port).has_room()
}

// Sends the front of what is pending at a port that has room: a row that is kept as values goes as these.
fn send_front(outs: &mut Listed<Outlet>, pending: &mut Lines, port: usize) -> Result<(), NoMemory>
    requires outs { port < length outs.old }
    requires pending { port < length pending.old }
    requires some { list_at pending.old port ≡ [] → ⊥ }
    requires room { (d : _) → HasRoom (slice_index_or outs.old port d) }
    requires may { MaySendAll outs.old pending.old }
    ensures sent { OnOk result (SentAt port outs.old pending.old outs.new pending.new true) }
    ensures one { OnOk result (sent_count outs.new ≡ sent_count outs.old + 1) }
    ensures front { OnOk result (HasSentFront port outs.old pending.old outs.new pending.new) }
{
    match pending.at(port).front_values() {
        Some(row) => {
            outs.at_mut(port).put_row(row)?;
            pending.at_mut(port).drop_front();
            Ok(())
        }
        None => send_item(outs, pending, port),
    }
}

// The same, as an item.
fn send_item(outs: &mut Listed<Outlet>, pending: &mut Lines, port: usize) -> Result<(), NoMemory>
    requires outs { port < length outs.old }
    requires pending { port < length pending.old }
    requires some { list_at pending.old port ≡ [] → ⊥ }
    requires room { (d : _) → HasRoom (slice_index_or outs.old port d) }
    requires may { MaySendAll outs.old pending.old }
    ensures sent { OnOk result (SentAt port outs.old pending.old outs.new pending.new true) }
    ensures one { OnOk result (sent_count outs.new ≡ sent_count outs.old + 1) }
    ensures front { OnOk result (HasSentFront port outs.old pending.old outs.new pending.new) }
{
    match pending.at_mut(port).pop() {
        Some(item) => outs.at_mut(port).put(item),
        None => unreachable!(),
    }
}

/// Sends the front of what is pending at a port, where there is room; says whether an item was sent.
pub(crate) fn send_at(
    outs: &mut Listed<Outlet>,
    pending: &mut Lines,
    port: usize,
) -> Result<bool, NoMemory>
    requires outs { port < length outs.old }
    requires pending { port < length pending.old }
    requires may { MaySendAll outs.old pending.old }
    ensures sent { IfOk result (SentAt port outs.old pending.old outs.new pending.new) }
    ensures one { IfOk result (λ moved. IsTrue moved → sent_count outs.new ≡ sent_count outs.old + 1) }
    ensures front { IfOk result (λ moved. IsTrue moved → HasSentFront port outs.old pending.old outs.new pending.new) }
    ensures goes { (list_at pending.old port ≡ [] → ⊥) → ((d : _) → HasRoom (slice_index_or outs.old port d)) → IfOk result IsTrue }
{
    if pending.at(port).is_empty() {
        return Ok(false);
    }
    if !has_room_at(outs, port) {
        return Ok(false);
    }
    send_front(outs, pending, port)?;
    Ok(true)
}

// What waits in the end at a port goes.
#[tactic(auto, using(crate::proofs::PortLemmas::outs_set, crate::proofs::PortLemmas::sent_same))]
fn flush_at(outs: &mut Listed<Outlet>, port: usize)
    requires { port < length outs.old }
    ensures same { out_ends outs.new ≡ out_ends outs.old }
    ensures sent { sent_in outs.new ≡ sent_in outs.old }
    ensures others { (j : ℕ) (d : _) → (port ≡ j → ⊥) → slice_index_or outs.new j d ≡ slice_index_or outs.old j d }
{
    outs.at_mut(port).flush();
}

// The same, where nothing is pending at the port.
fn flush_port(outs: &mut Listed<Outlet>, pending: &Lines, port: usize)
    requires { port < length outs.old }
    ensures { Flushed outs.old pending.now outs.new }
{
    if port < pending.len() && pending.at(port).is_empty() {
        flush_at(outs, port);
    }
}

/// What waits in the ends goes, at each port at which nothing is pending.
#[tactic(auto, using(crate::proofs::PassLemmas::flushed_none, crate::proofs::PassLemmas::flushed_then))]
pub(crate) fn flush_all(outs: &mut Listed<Outlet>, pending: &Lines)
    ensures { Flushed outs.old pending.now outs.new }
{
    for port in 0..outs.len() {
        flush_port(outs, pending, port);
    }
}
