// The files of a program's inputs.
ghost use Rattle.std.specs.Prelude.{◌≡◌, ◌≤◌, length, IfOk};
ghost use Rattle.river_outside.specs.Causes.{Rose};
ghost use Rattle.river_outside.specs.Order.{Fetch};
ghost use Rattle.river_outside.specs.Passes.{Passes};
ghost use Rattle.river_road.specs.Inputs.{fetch_each};
ghost use Rattle.river_road.specs.Limits.{most_input};
ghost use Rattle.river_road.specs.Text.{large_input};

use crate::text;
use command_line::InWord;
use river_base::{Bytes, Listed};
use river_outside::{Shelf, Stop, fetch_turn};
use std::alloc::Global;

const MOST_INPUT: u64 = 67_108_864;

/// The bytes of all files that the words name, in the order of the words.
pub(crate) fn fetch_all<S: Shelf>(
    alloc: Global,
    shelf: &mut S,
    ins: &[InWord],
) -> Result<Listed<Bytes>, Stop>
    ensures stays { S.held shelf.new ≡ S.held shelf.old }
    ensures later { S.faults shelf.old ≤ S.faults shelf.new }
    ensures count { IfOk result (λ files. length files ≡ length ins.now) }
    ensures passes { Passes (fetch_each ins.now) (S.held shelf.old) (Rose S.stays_at_last (S.faults shelf.old) (S.faults shelf.new)) result }
{
    let mut files = Listed::new(alloc);
    for word in ins {
        files.push(fetch_one(alloc, shelf, word)?)?;
    }
    Ok(files)
}

// The bytes of the file that a word names.
fn fetch_one<S: Shelf>(alloc: Global, shelf: &mut S, word: &InWord) -> Result<Bytes, Stop>
    ensures stays { S.held shelf.new ≡ S.held shelf.old }
    ensures later { S.faults shelf.old ≤ S.faults shelf.new }
    ensures passes { Passes (Fetch word.now.file most_input (large_input word.now.name))
        (S.held shelf.old) (Rose S.stays_at_last (S.faults shelf.old) (S.faults shelf.new)) result }
{
    let large = text::large(alloc, word.name.as_slice())?;
    fetch_turn(
        alloc,
        shelf,
        word.file.as_slice(),
        MOST_INPUT,
        large.as_slice(),
    )
}
