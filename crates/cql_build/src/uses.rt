// The streams that items name, and the queues from which they are read.
ghost use Rattle.std.specs.Prelude.{◌≡◌, ◌≤◌, ◌+◌, ◌++◌, ◌∷◌, [], IfOk, OnOk, length};
ghost use Rattle.river_plan.specs.Names.{count};
ghost use Rattle.cql_model.specs.Program.{registered, streams_of, all_uses};
ghost use Rattle.cql_model.specs.Plan.{queue_of_use};
ghost use Rattle.cql_text.specs.Tree.{sources_of, unit_form, unit_forms};
ghost use Rattle.cql_build.specs.Grown.{Notes};

use crate::names::{Mark, marked};
use crate::values::count;
use cql_text::{Source, Unit};
use river_base::{Name, NoMemory};
use river_plan::Names;
use std::alloc::Global;

/// The streams that are registered, those that items name, and of these those whose queue is known.
#[derive(Drop)]
pub(crate) struct StreamUses {
    pub inputs: Names,
    pub all: Names,
    pub past: Names,
}

impl StreamUses {
    /// Those of a program, none of which has its queue.
    pub(crate) fn of(alloc: Global, units: &[Unit]) -> Result<StreamUses, NoMemory>
        ensures inputs { IfOk result (λ uses. uses.inputs ≡ registered (unit_forms units.now)) }
        ensures all { IfOk result (λ uses. uses.all ≡ all_uses (unit_forms units.now)) }
        ensures past { IfOk result (λ uses. uses.past ≡ []) }
    {
        let mut uses = StreamUses {
            inputs: Names::new(alloc),
            all: Names::new(alloc),
            past: Names::new(alloc),
        };
        for part in units {
            uses.note(part)?;
        }
        Ok(uses)
    }

    // The streams of a unit.
    fn note(&mut self, part: &Unit) -> Result<(), NoMemory>
        ensures { OnOk result (Notes self.old self.new (unit_form part.now)) }
    {
        match part {
            Unit::Register(stream) => self.inputs.push(stream.name),
            Unit::Query(query) => note_sources(&mut self.all, query.items.as_slice()),
        }
    }

    /// How often items name this stream.
    pub(crate) fn count(&self, name: Name) -> usize
        ensures { result ≡ count name self.now.all }
    {
        count(self.all.as_slice(), name)
    }

    /// The queue from which the next item that names this stream reads: the stream's own where it is registered and named once, and
    /// otherwise the next of its copies.
    #[tactic(auto, using(crate::proofs::Lists::once_more))]
    pub(crate) fn source(&mut self, alloc: Global, stream: Name) -> Result<Name, NoMemory>
        requires { length stream ≤ 40 }
        ensures name { IfOk result (λ source. source ≡ queue_of_use self.old.inputs self.old.all stream (count stream self.old.past)) }
        ensures past { OnOk result (self.new.past ≡ self.old.past ++ stream ∷ []) }
        ensures inputs { self.new.inputs ≡ self.old.inputs }
        ensures all { self.new.all ≡ self.old.all }
    {
        self.past.push(stream)?;
        if count(self.inputs.as_slice(), stream) > 0 && self.count(stream) <= 1 {
            return Ok(stream);
        }
        let number = count(self.past.as_slice(), stream);
        marked(alloc, stream, Mark::Copy(number))
    }
}

// The streams that these items name, behind those that are there.
fn note_sources(to: &mut Names, sources: &[Source]) -> Result<(), NoMemory>
    ensures { OnOk result (to.new ≡ to.old ++ streams_of (sources_of sources.now)) }
{
    for source in sources {
        to.push(source.stream)?;
    }
    Ok(())
}
