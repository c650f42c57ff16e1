// Judges the units of a program, one after another.
ghost use Rattle.std.specs.Prelude.{◌≡◌, ◌<◌, ◌≤◌, ◌^◌, length};
ghost use Rattle.streamit_model.specs.Judged.{Streamed, splitter_of, stream_of, unit_of, all_streams};
ghost use Rattle.streamit_text.specs.Program.{AFilter, APipeline, filter_tree, dealing_of, adds_of, body_of, unit_form, unit_forms};
ghost use Rattle.streamit_text.specs.declared.program.Body.TheVariants as tree;
ghost use Rattle.streamit_unroll.specs.Filter.{IsReadable};
ghost use Rattle.streamit_unroll.specs.View.{Judges};
ghost use Rattle.streamit_build.specs.Units.{splitter_form};
ghost use Rattle.streamit_build.specs.Readable.{IsReadableBody, AreReadable};
ghost use Rattle.streamit_build.specs.Knowing.{Knows, Declares};
ghost use Rattle.streamit_build.specs.Planned.{refused_in, JudgesAll};

use crate::names::sum;
use crate::rounds::round;
use crate::streams::few;
use crate::{Declared, Known, Refused};
use river_base::Name;
use std::alloc::Global;
use streamit_model::{Fault, Refusal};
use streamit_text::{Adds, Body, FilterTree, Split, SplitJoin, Unit};
use streamit_unroll::{RefusedUnit, filter};

impl Known {
    /// All units of a program, one after another.
    pub fn units(&mut self, alloc: Global, units: &[Unit]) -> Result<(), Refused>
        requires readable { AreReadable (unit_forms units.now) }
        requires few { length units.now < 2 ^ 32 }
        ensures { (start : Streamed) → Knows self.old start → JudgesAll result self.new (all_streams 1 start (unit_forms units.now)) }
    {
        for i in 0..units.len() {
            match self.unit(alloc, &units[i]) {
                Ok(()) => {}
                Err(why) => return Err(refused_in(i as u32 + 1, why)),
            }
        }
        Ok(())
    }

    // A unit of the program.
    fn unit(&mut self, alloc: Global, unit: &Unit) -> Result<(), RefusedUnit>
        requires { IsReadableBody (body_of unit.now.body) }
        ensures { (known : Streamed) → Knows self.old known → Declares result self.new known unit.now.name (unit_of known (unit_form unit.now)) }
    {
        if self.find(unit.name).is_some() {
            return Err(RefusedUnit::Fault(Fault::NameTwice));
        }
        self.body(alloc, unit.name, &unit.body)
    }

    // What is declared.
    fn body(&mut self, alloc: Global, name: Name, body: &Body) -> Result<(), RefusedUnit>
        requires readable { IsReadableBody (body_of body.now) }
        requires short { length name ≤ 40 }
        ensures { (known : Streamed) → Knows self.old known → Declares result self.new known name (stream_of known name (body_of body.now)) }
    {
        match body {
            Body::Filter(tree) => self.filter(alloc, name, tree),
            Body::Pipeline(adds) => self.pipeline(alloc, name, adds),
            Body::SplitJoin(all) => self.split_join(alloc, name, all),
        }
    }

    // A filter.
    fn filter(&mut self, alloc: Global, name: Name, tree: &FilterTree) -> Result<(), RefusedUnit>
        requires readable { IsReadable (filter_tree tree.now) }
        requires short { length name ≤ 40 }
        ensures { (known : Streamed) → Knows self.old known → Declares result self.new known name (stream_of known name (AFilter (filter_tree tree.now))) }
    {
        let filter = filter(alloc, tree)?;
        self.declare(name, Declared::Filter { name, filter }, 1, 1)?;
        Ok(())
    }

    // Streams in a line.
    fn pipeline(&mut self, alloc: Global, name: Name, adds: &Adds) -> Result<(), RefusedUnit>
        ensures { (known : Streamed) → Knows self.old known → Declares result self.new known name (stream_of known name (APipeline (adds_of adds.now))) }
    {
        let children = self.children(alloc, false, adds)?;
        let depth = sum(children.deepest, 1)?;
        let stream = Declared::Pipeline {
            front: children.front,
            last: children.last,
        };
        self.declare(name, stream, children.ops, depth)?;
        Ok(())
    }

    // A splitter, branches and a joiner.
    fn split_join(&mut self, alloc: Global, name: Name, all: &SplitJoin) -> Result<(), RefusedUnit>
        ensures { (known : Streamed) → Knows self.old known → Declares result self.new known name (stream_of known name (body_of (tree.SplitJoin all.now))) }
    {
        let count = all.adds.others.len() + 1;
        let split = splitter(alloc, &all.split, count)?;
        let children = self.children(alloc, true, &all.adds)?;
        let join = round(alloc, &all.join, count)?;
        let depth = sum(children.deepest, 1)?;
        let ops = few(children.ops, 2);
        let stream = Declared::SplitJoin {
            split,
            front: children.front,
            last: children.last,
            join,
        };
        self.declare(name, stream, ops, depth)?;
        Ok(())
    }
}

// Why a program is refused whose unit with this number is.
fn refused_in(unit: u32, why: RefusedUnit) -> Refused
    ensures { result ≡ refused_in unit why }
{
    match why {
        RefusedUnit::Fault(fault) => Refused::Program(Refusal { unit, fault }),
        RefusedUnit::NoMemory => Refused::NoMemory,
    }
}

// The weights of a splitter, or none where it copies.
fn splitter(alloc: Global, split: &Split, branches: usize) -> Result<Option<Vec<u32>>, RefusedUnit>
    requires { 1 ≤ branches }
    ensures { Judges splitter_form result (splitter_of (dealing_of split.now) branches) }
{
    match split {
        Split::Duplicate => Ok(None),
        Split::RoundRobin(weights) => {
            let weights = round(alloc, weights, branches)?;
            Ok(Some(weights))
        }
    }
}
