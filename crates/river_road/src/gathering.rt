// From the words of `run` to a plan that is ready to be run.
ghost use Rattle.std.specs.Prelude.{◌≤◌, IfOk};
ghost use Rattle.river_outside.specs.Causes.{Rose};
ghost use Rattle.river_outside.specs.Passes.{Passes, PassesAs};
ghost use Rattle.river_plan.specs.Valid.{IsPlan};
ghost use Rattle.river_road.specs.Contents.{AreContents};
ghost use Rattle.river_road.specs.Supplied.{IsGathered};
ghost use Rattle.river_road.specs.Inputs.{of_inputs};
ghost use Rattle.river_road.specs.Points.{of_gathered, of_scripted, of_supplied};
ghost use Rattle.river_road.specs.Source.{SourceProgram, IsPlanned};

use crate::content::FileContent;
use crate::gather::gather;
use crate::gathered::Gathered;
use crate::language::Language;
use crate::layout::Layout;
use crate::road::{compiled, scripted};
use command_line::{InWords, RunWords};
use river_base::Listed;
use river_outside::{Shelf, Stop};
use river_plan::{Caps, Plan};
use std::alloc::Global;

/// The program of `run` is fetched and compiled, its script is applied where one is given, and its inputs are read.
pub fn gather_run<L: Language, S: Shelf>(
    alloc: Global,
    words: &RunWords,
    shelf: &mut S,
) -> Result<Gathered, Stop>
    ensures later { S.faults shelf.old ≤ S.faults shelf.new }
    ensures passes { PassesAs IsGathered (of_gathered L.source L.more words.now) (S.held shelf.old)
        (Rose S.stays_at_last (S.faults shelf.old) (S.faults shelf.new)) result }
{
    let compiled = compiled::<L, S>(alloc, &words.file, shelf)?;
    let layout = Layout::of::<L>(words.header);
    gather_scripted(alloc, words, layout, compiled.plan, compiled.caps, shelf)
}

// A plan is rewritten, where a script is given, and its inputs are read.
fn gather_scripted<S: Shelf>(
    alloc: Global,
    words: &RunWords,
    layout: Layout,
    plan: Plan,
    caps: Caps,
    shelf: &mut S,
) -> Result<Gathered, Stop>
    ensures later { S.faults shelf.old ≤ S.faults shelf.new }
    ensures passes { (source : SourceProgram) → IsPlanned caps source plan
        → PassesAs IsGathered (of_scripted words.now.script words.now.ins layout source) (S.held shelf.old)
        (Rose S.stays_at_last (S.faults shelf.old) (S.faults shelf.new)) result }
{
    let made = scripted(alloc, &words.script, plan, shelf)?;
    gather_inputs(alloc, &words.ins, layout, made, caps, shelf)
}

// The inputs of a plan are read.
fn gather_inputs<S: Shelf>(
    alloc: Global,
    ins: &InWords,
    layout: Layout,
    plan: Plan,
    caps: Caps,
    shelf: &mut S,
) -> Result<Gathered, Stop>
    ensures later { S.faults shelf.old ≤ S.faults shelf.new }
    ensures passes { (source : SourceProgram) → IsPlanned caps source plan
        → PassesAs IsGathered (of_supplied ins.now layout source) (S.held shelf.old)
        (Rose S.stays_at_last (S.faults shelf.old) (S.faults shelf.new)) result }
{
    let files = files_for(alloc, ins, layout, &plan, shelf)?;
    Ok(Gathered::over(alloc, plan, caps, files)?)
}

/// What each input of a plan has.
pub(crate) fn files_for<S: Shelf>(
    alloc: Global,
    ins: &InWords,
    layout: Layout,
    plan: &Plan,
    shelf: &mut S,
) -> Result<Listed<FileContent>, Stop>
    ensures later { S.faults shelf.old ≤ S.faults shelf.new }
    ensures valid { IsPlan plan.now }
    ensures contents { IfOk result (AreContents plan.now.inputs) }
    ensures passes { Passes (of_inputs plan.now.inputs ins.now layout) (S.held shelf.old)
        (Rose S.stays_at_last (S.faults shelf.old) (S.faults shelf.new)) result }
{
    let decls = plan.raw().inputs.as_slice();
    gather(alloc, decls, ins.as_slice(), layout, shelf)
}
