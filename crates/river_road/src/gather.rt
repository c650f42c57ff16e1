// From the words to what the files of a program's inputs have.
ghost use Rattle.std.specs.Prelude.{◌≤◌, ℕ, List, All, IfOk};
ghost use Rattle.river_outside.specs.Causes.{Rose};
ghost use Rattle.river_outside.specs.Passes.{Passes};
ghost use Rattle.river_plan.specs.Faults.{IsOuter};
ghost use Rattle.river_plan.specs.Forms.{decl_names};
ghost use Rattle.river_plan.specs.Names.{count};
ghost use Rattle.river_road.specs.Contents.{AreContents};
ghost use Rattle.river_road.specs.Inputs.{of_inputs};

use crate::content::FileContent;
use crate::fetched::fetch_all;
use crate::layout::Layout;
use crate::names::check_names;
use crate::rows::read_inputs;
use command_line::InWord;
use river_base::Listed;
use river_outside::{Shelf, Stop};
use river_plan::Decl;
use std::alloc::Global;

/// What each input of a program has, in their order: the names are looked at, all files are fetched, and then all are read.
pub fn gather<S: Shelf>(
    alloc: Global,
    decls: &[Decl],
    ins: &[InWord],
    layout: Layout,
    shelf: &mut S,
) -> Result<Listed<FileContent>, Stop>
    requires outer { All IsOuter decls.now }
    requires apart { (q : List ℕ) → count q (decl_names decls.now) ≤ 1 }
    ensures later { S.faults shelf.old ≤ S.faults shelf.new }
    ensures contents { IfOk result (AreContents decls.now) }
    ensures passes { Passes (of_inputs decls.now ins.now layout) (S.held shelf.old) (Rose S.stays_at_last (S.faults shelf.old) (S.faults shelf.new)) result }
{
    check_names(alloc, decls, ins)?;
    let files = fetch_all(alloc, shelf, ins)?;
    read_inputs(alloc, decls, layout, ins, files.as_slice())
}
