// Files in memory, which tell what they hold, and whose calls fail where it is asked.
ghost use Rattle.std.specs.Prelude.{◌≡◌, ◌≤◌, ◌∷◌, ◌-◌, ◌++◌, min, [], true, length, take, drop, Some, None, IfOk, OnOk, OnErr, MatchOption};
ghost use Rattle.std.specs.Bool.{OnTrue, OnFalse};
ghost use Rattle.river_outside.specs.Causes.{Rose};
ghost use Rattle.river_outside.specs.Files.{lookup};

use crate::Store;
use crate::count::one_more;
use river_base::{Bytes, NoMemory, Numbers};
use river_outside::{Failed, ReadFault, Shelf};
use std::alloc::Global;
use std::cmp;

/// Files in memory. The calls whose numbers are asked to fail do; so does a `put` for which there is no memory.
#[derive(Drop)]
pub struct MemStore {
    alloc: Global,
    // Names and contents. What was put last stands first, and what it took the place of stays behind it.
    files: Vec<(Bytes, Bytes)>,
    fails: Numbers,
    calls: u64,
    faults: u64,
}

impl MemStore {
    /// No files. The calls whose numbers, from 0, stand in `fails` fail.
    pub fn new(alloc: Global, fails: Numbers) -> Self
        ensures empty { result.files.items ≡ [] }
        ensures faults { result.faults ≡ 0 }
    {
        MemStore {
            alloc,
            files: Vec::new(alloc),
            fails,
            calls: 0,
            faults: 0,
        }
    }

    /// What a file holds.
    pub fn file(&self, name: &[u8]) -> Option<&[u8]>
        ensures { MatchOption result (lookup self.now.files.items name.now ≡ None)
            (λ bytes. lookup self.now.files.items name.now ≡ Some bytes.now) }
    {
        for file in &self.files {
            if file.0.as_slice() == name {
                return Some(file.1.as_slice());
            }
        }
        None
    }

    // Counts a call, and says whether it fails, which is a fault.
    fn fails_now(&mut self) -> bool
        ensures files { self.new.files ≡ self.old.files }
        ensures rose { OnTrue result (Rose true self.old.faults self.new.faults) }
        ensures later { self.old.faults ≤ self.new.faults }
        ensures stays { OnFalse result (self.new.faults ≡ self.old.faults) }
    {
        let fails = match i64::try_from(self.calls) {
            Ok(number) => self.fails.as_slice().contains(&number),
            Err(_) => false,
        };
        self.calls = self.calls.saturating_add(1);
        if fails {
            self.faults = one_more(self.faults);
        }
        fails
    }

    // Puts a file before the others.
    fn add(&mut self, name: &[u8], bytes: &[u8]) -> Result<(), NoMemory>
        ensures ok { OnOk result (self.new.files.items ≡ (name.now, bytes.now) ∷ self.old.files.items) }
        ensures err { OnErr result (self.new.files.items ≡ self.old.files.items) }
        ensures stays { self.new.faults ≡ self.old.faults }
    {
        let name = Bytes::from_slice(self.alloc, name)?;
        let bytes = Bytes::from_slice(self.alloc, bytes)?;
        match self.files.insert(0, (name, bytes)) {
            Ok(()) => Ok(()),
            Err(_) => Err(NoMemory),
        }
    }
}

// Copies bytes from a place on to the front of `into`, and says how many.
fn copy_piece(bytes: &[u8], at: u64, into: &mut [u8]) -> usize
    ensures count { result ≡ min (length into.old) (length bytes.now - at) }
    ensures copied { into.new ≡ take result (drop at bytes.now) ++ drop result into.old }
{
    let left = bytes.len() - cmp::min(at, bytes.len() as u64) as usize;
    let count = cmp::min(into.len(), left);
    let start = bytes.len() - left;
    into[..count].copy_from_slice(&bytes[start..start + count]);
    count
}

impl Shelf for MemStore {
    ghost held = { λ s. Some (lookup s.files.items) };

    ghost faults = { λ s. s.faults };

    ghost stays_at_last = { true };

    fn read(&mut self, name: &[u8], at: u64, into: &mut [u8]) -> Result<usize, ReadFault> {
        if self.fails_now() {
            return Err(ReadFault::Failed);
        }
        match self.file(name) {
            Some(bytes) => Ok(copy_piece(bytes, at, into)),
            None => Err(ReadFault::Absent),
        }
    }
}

impl Store for MemStore {
    fn put(&mut self, name: &[u8], bytes: &[u8]) -> Result<(), Failed> {
        if self.fails_now() {
            return Err(Failed);
        }
        match self.add(name, bytes) {
            Ok(()) => Ok(()),
            Err(NoMemory) => {
                self.faults = one_more(self.faults);
                Err(Failed)
            }
        }
    }
}
