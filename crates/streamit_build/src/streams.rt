// The streams that are declared so far, by their names.
ghost use Rattle.std.specs.Prelude.{◌≡◌, ◌+◌, [], ◌∷◌, ◌++◌, Some, min, max, OnOk, if◌then◌else◌};
ghost use Rattle.indexmap.specs.IndexMap.{get};
ghost use Rattle.river_base.specs.Name.{name_eq};
ghost use Rattle.river_plan.specs.Forms.{Name};
ghost use Rattle.streamit_model.specs.Unrolled.{Stream};
ghost use Rattle.streamit_model.specs.Judged.{Streamed, stream_added, streams_added};
ghost use Rattle.streamit_build.specs.Units.{declared_forms};
ghost use Rattle.streamit_build.specs.Knowing.{Knows, IfNext, may, AddsOne, AddsAll};

use crate::Declared;
use indexmap::IndexMap;
use river_base::{Name, NoMemory};
use std::alloc::Global;
use streamit_model::Fault;
use streamit_text::Adds;
use streamit_unroll::RefusedUnit;

/// A stream that is known: its number, its operators (257 stands for more), and how deep it is nested.
#[derive(Clone, Copy)]
pub(crate) struct Entry {
    pub number: u32,
    pub ops: u32,
    pub nesting: u32,
}

/// The streams that are known.
#[derive(Drop)]
pub(crate) struct Known {
    pub entries: IndexMap<Name, Entry>,
    pub declared: Vec<Declared>,
}

/// The streams that are added to one: all but the last, and the last.
#[derive(Drop)]
pub(crate) struct Children {
    pub front: Vec<u32>,
    pub last: u32,
    pub ops: u32,
    pub deepest: u32,
}

impl Known {
    /// No stream is known.
    pub fn new(alloc: Global) -> Known
        ensures { Knows result [] }
    {
        Known {
            entries: IndexMap::new(alloc),
            declared: Vec::new(alloc),
        }
    }

    /// What is known of a name.
    pub(crate) fn find(&self, name: Name) -> Option<Entry>
        ensures { result ≡ get name_eq self.now.entries name }
    {
        self.entries.get(&name).copied()
    }

    // The stream that is added as number `place`.
    fn added(&self, branch: bool, place: usize, name: Name) -> Result<Entry, RefusedUnit>
        ensures { (known : Streamed) → Knows self.now known → AddsOne (declared_forms self.now.declared.items) result (stream_added (may branch) known place name) }
    {
        if branch && place >= 64 {
            return Err(RefusedUnit::Fault(Fault::Limit));
        }
        let Some(entry) = self.find(name) else {
            return Err(RefusedUnit::Fault(Fault::UnknownName));
        };
        if entry.nesting >= 64 {
            return Err(RefusedUnit::Fault(Fault::Limit));
        }
        Ok(entry)
    }

    /// The streams that are added, one after another.
    pub(crate) fn children(
        &self,
        alloc: Global,
        branch: bool,
        adds: &Adds,
    ) -> Result<Children, RefusedUnit>
        ensures { (known : Streamed) → Knows self.now known
            → AddsAll (declared_forms self.now.declared.items) result (streams_added (may branch) known 0 adds.now.first adds.now.others.items) }
    {
        let first = self.added(branch, 0, adds.first)?;
        let mut children = Children::one(alloc, first);
        for i in 0..adds.others.len() {
            let next = self.added(branch, i + 1, adds.others[i])?;
            children.push(next)?;
        }
        Ok(children)
    }

    /// One stream more, whose name is not known yet.
    pub(crate) fn declare(
        &mut self,
        name: Name,
        stream: Declared,
        ops: u32,
        depth: u32,
    ) -> Result<(), NoMemory>
        ensures { (known : Streamed) (s : Stream) → Knows self.old known
            → IfNext self.old.declared.items stream s ops depth (OnOk result (Knows self.new ((name, s) ∷ known))) }
    {
        let Ok(number) = u32::try_from(self.declared.len()) else {
            return Err(NoMemory);
        };
        self.declared.push(stream)?;
        let entry = Entry {
            number,
            ops,
            nesting: depth,
        };
        self.note(name, entry)
    }

    // The name stands for this entry from here on.
    fn note(&mut self, name: Name, entry: Entry) -> Result<(), NoMemory>
        ensures entries { OnOk result ((q : Name) → get name_eq self.new.entries q ≡ (if name_eq name q then Some entry else get name_eq self.old.entries q)) }
        ensures declared { self.new.declared ≡ self.old.declared }
    {
        self.entries.insert(name, entry)?;
        Ok(())
    }
}

impl Children {
    // One stream.
    fn one(alloc: Global, entry: Entry) -> Children
        ensures front { result.front.items ≡ [] }
        ensures last { result.last ≡ entry.number }
        ensures ops { result.ops ≡ entry.ops }
        ensures deepest { result.deepest ≡ entry.nesting }
    {
        Children {
            front: Vec::new(alloc),
            last: entry.number,
            ops: entry.ops,
            deepest: entry.nesting,
        }
    }

    // One stream more.
    fn push(&mut self, entry: Entry) -> Result<(), NoMemory>
        ensures front { OnOk result (self.new.front.items ≡ self.old.front.items ++ self.old.last ∷ []) }
        ensures last { OnOk result (self.new.last ≡ entry.number) }
        ensures ops { OnOk result (self.new.ops ≡ min (self.old.ops + entry.ops) 257) }
        ensures deepest { OnOk result (self.new.deepest ≡ max self.old.deepest entry.nesting) }
    {
        self.front.push(self.last)?;
        self.last = entry.number;
        self.ops = few(self.ops, entry.ops);
        self.deepest = self.deepest.max(entry.nesting);
        Ok(())
    }
}

/// The sum of two numbers of operators, where 257 stands for more.
pub(crate) fn few(a: u32, b: u32) -> u32
    ensures { result ≡ min (a + b) 257 }
{
    a.saturating_add(b).min(257)
}
