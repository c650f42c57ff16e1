// A shelf and a sink in memory, which tell what they hold and took, and whose calls fail where it is asked.
ghost use Rattle.std.specs.Prelude.{◌≡◌, ◌≤◌, ◌<◌, ◌+◌, ◌-◌, ◌++◌, min, [], true, false, length, take, drop, Option, Some, None, IfOk, OnErr, MatchOption, IsErrOf, IsTrue};
ghost use Rattle.river_outside.specs.Causes.{Rose};
ghost use Rattle.river_outside.specs.Held.{ReadsHeld, EndsBy};
ghost use Rattle.river_outside.specs.Files.{lookup};
ghost use Rattle.river_outside.specs.Memory as memory;

use crate::count::one_fault_more;
use crate::{Failed, ReadFault, Shelf, Sink};
use river_base::{Bytes, Listed, NoMemory, Numbers};
use std::alloc::Global;
use std::cmp;
use std::marker::Model;

/// Names and contents.
pub type Files = Listed<(Bytes, Bytes)>;

/// Files in memory. Its reads give at most `piece` bytes, and those whose numbers are asked to fail do.
#[derive(Drop)]
pub struct MemShelf {
    files: Files,
    piece: u32,
    fails: Numbers,
    calls: u64,
    faults: u64,
}

impl Model for MemShelf {
    ghost use Rattle.std.specs.Prelude.{◌≤◌};
    ghost use Rattle.river_outside.specs.Memory as memory;

    ghost Value = { memory.MemoryShelf };

    ghost view = { λ s. record { files = s.files; piece = s.piece; fails = s.fails; calls = s.calls; faults = s.faults } };

    // Only calls whose numbers are below 2^63 fail, so the count of faults never comes to its last value.
    ghost invariant = { λ s. (1 ≤ s.piece) × (s.faults ≤ s.calls) };
}

impl MemShelf {
    /// A shelf of these files, no two of one name. A read gives at most `piece` bytes, and the calls whose
    /// numbers, from 0, stand in `fails` fail.
    pub fn new(files: Files, piece: u32, fails: Numbers) -> Self
        requires some { 1 ≤ piece }
        requires distinct { IsTrue (memory.distinct_names files) }
        ensures { result ≡ record { files = files; piece = piece; fails = fails; calls = 0; faults = 0 } }
    {
        MemShelf {
            files,
            piece,
            fails,
            calls: 0,
            faults: 0,
        }
    }
}

impl Shelf for MemShelf {
    ghost held = { λ s. Some (lookup s.files) };

    ghost faults = { λ s. s.faults };

    ghost stays_at_last = { false };

    fn read(&mut self, name: &[u8], at: u64, into: &mut [u8]) -> Result<usize, ReadFault>
        ensures stays { self.new.files ≡ self.old.files }
        ensures later { self.old.faults ≤ self.new.faults }

        ensures bound { IfOk result (λ n. n ≤ length into.new) }
        ensures bytes { IfOk result (λ n. ReadsHeld (lookup self.old.files name.now) at n into.new) }
        ensures end { IfOk result (λ n. n ≡ 0 → 0 < length into.new → EndsBy (lookup self.old.files name.now) at) }

        ensures failed { IsErrOf result ReadFault.Failed → Rose false self.old.faults self.new.faults }
        ensures absent { IsErrOf result ReadFault.Absent → lookup self.old.files name.now ≡ None }
        ensures honest { (IsErrOf result ReadFault.Failed → ⊥) → self.new.faults ≡ self.old.faults }

        // The files, the piece and the call's number decide.
        ensures exactly { result ≡ memory.read_answer self.old name.now at (length into.old) }
        ensures moved { self.new ≡ memory.after_read self.old }
    {
        let call = self.calls;
        self.calls = call.saturating_add(1);
        if call_fails(&self.fails, call) {
            self.faults += 1;
            return Err(ReadFault::Failed);
        }
        match find(&self.files, name) {
            Some(bytes) => Ok(copy_piece(bytes.as_slice(), at, self.piece, into)),
            None => Err(ReadFault::Absent),
        }
    }
}

// Whether the call of this number fails.
fn call_fails(fails: &Numbers, call: u64) -> bool
    ensures { result ≡ memory.call_fails fails.now call }
{
    match i64::try_from(call) {
        Ok(number) => fails.as_slice().contains(&number),
        Err(_) => false,
    }
}

// The content under a name.
fn find<'a>(files: &'a Files, name: &[u8]) -> Option<&'a Bytes>
    ensures { MatchOption result (lookup files.now name.now ≡ None) (λ bytes. lookup files.now name.now ≡ Some bytes.now) }
{
    for file in files.as_slice() {
        if file.0.as_slice() == name {
            return Some(&file.1);
        }
    }
    None
}

// Copies bytes from a place on to the front of `into`, at most `piece` of them, and says how many.
fn copy_piece(bytes: &[u8], at: u64, piece: u32, into: &mut [u8]) -> usize
    ensures count { result ≡ min (min piece (length into.old)) (length bytes.now - at) }
    ensures copied { into.new ≡ take result (drop at bytes.now) ++ drop result into.old }
{
    let left = bytes.len() - cmp::min(at, bytes.len() as u64) as usize;
    let count = cmp::min(cmp::min(piece as usize, into.len()), left);
    let start = bytes.len() - left;
    into[..count].copy_from_slice(&bytes[start..start + count]);
    count
}

/// Bytes taken into memory. Its writes take at most `piece` bytes, and those whose numbers are asked to fail do.
#[derive(Drop)]
pub struct MemSink {
    taken: Vec<u8>,
    piece: u32,
    room: u32,
    fails: Numbers,
    calls: u64,
    faults: u64,
}

impl Model for MemSink {
    ghost use Rattle.std.specs.Prelude.{◌≤◌, length, vec_capacity};
    ghost use Rattle.river_outside.specs.Memory as memory;

    ghost Value = { memory.MemorySink };

    ghost view = { λ s. record { taken = s.taken.items; piece = s.piece; room = s.room; fails = s.fails; calls = s.calls; faults = s.faults } };

    ghost invariant = { λ s. (1 ≤ s.piece) × (length s.taken.items ≤ s.room) × (s.room ≤ vec_capacity s.taken) };
}

impl MemSink {
    /// A sink that takes room for `room` bytes at once, and no memory later. A write takes at most `piece`
    /// bytes; the calls whose numbers, from 0, stand in `fails` fail, and so does a write where the room is full.
    pub fn new(alloc: Global, piece: u32, fails: Numbers, room: u32) -> Result<Self, NoMemory>
        requires some { 1 ≤ piece }
        ensures { IfOk result (λ s. s ≡ record { taken = []; piece = piece; room = room; fails = fails; calls = 0; faults = 0 }) }
    {
        let taken = Vec::with_capacity(alloc, room as usize)?;
        Ok(MemSink {
            taken,
            piece,
            room,
            fails,
            calls: 0,
            faults: 0,
        })
    }

    /// The bytes taken.
    pub fn taken(&self) -> &[u8]
        ensures { result.now ≡ self.now.taken }
    {
        self.taken.as_slice()
    }
}

impl Sink for MemSink {
    ghost taken = { λ s. Some s.taken };

    ghost faults = { λ s. s.faults };

    ghost stays_at_last = { true };

    fn write(&mut self, bytes: &[u8]) -> Result<usize, Failed>
        ensures later { self.old.faults ≤ self.new.faults }
        ensures bound { IfOk result (λ n. n ≤ length bytes.now) }
        ensures moves { IfOk result (λ n. 0 < length bytes.now → 0 < n) }
        ensures took { IfOk result (λ n. self.new.taken ≡ self.old.taken ++ take n bytes.now) }
        ensures nothing { OnErr result (self.new.taken ≡ self.old.taken) }
        ensures failed { OnErr result (Rose true self.old.faults self.new.faults) }

        // The room, the piece and the call's number decide.
        ensures exactly { result ≡ memory.write_answer self.old bytes.now }
        ensures moved { self.new ≡ memory.after_write self.old bytes.now }
    {
        let call = self.calls;
        self.calls = call.saturating_add(1);
        let left = self.room as usize - self.taken.len();
        if call_fails(&self.fails, call) || (!bytes.is_empty() && left == 0) {
            self.faults = one_fault_more(self.faults);
            return Err(Failed);
        }
        let count = cmp::min(cmp::min(self.piece as usize, bytes.len()), left);
        match self.taken.extend_from_slice(&bytes[..count]) {
            Ok(()) => Ok(count),
            Err(_) => unreachable!(),
        }
    }
}
