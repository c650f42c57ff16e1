// The commands over any source language, each in the language that its words name.
ghost use Rattle.std.specs.Prelude.{◌≤◌};
ghost use Rattle.river_outside.specs.Causes.{Rose};
ghost use Rattle.river_outside.specs.Passes.{Passes, PassesAs};
ghost use Rattle.river_road.specs.Supplied.{IsGathered};
ghost use Rattle.river_road.specs.Points.{of_gathered, of_mean, of_show};
ghost use Rattle.river_cli.specs.Points.{source_in, takes_more};

use command_line::{InWords, Lang, RunWords};
use river_base::{Bytes, Text};
use river_langs::{Cql, Params, River, Sawzall, Streamit};
use river_outside::{Shelf, Stop};
use river_road::{Gathered, gather_run, mean, show};
use std::alloc::Global;

/// What is to be run for the words of `run`.
pub(crate) fn gather_in<S: Shelf>(
    alloc: Global,
    words: &RunWords,
    shelf: &mut S,
) -> Result<Gathered, Stop>
    ensures later { S.faults shelf.old ≤ S.faults shelf.new }
    ensures passes { PassesAs IsGathered (of_gathered (source_in words.now.lang) (takes_more words.now.lang) words.now) (S.held shelf.old)
        (Rose S.stays_at_last (S.faults shelf.old) (S.faults shelf.new)) result }
{
    match words.lang {
        Lang::River => gather_run::<River, S>(alloc, words, shelf),
        Lang::Streamit => gather_run::<Streamit, S>(alloc, words, shelf),
        Lang::Params => gather_run::<Params, S>(alloc, words, shelf),
        Lang::Sawzall => gather_run::<Sawzall, S>(alloc, words, shelf),
        Lang::Cql => gather_run::<Cql, S>(alloc, words, shelf),
    }
}

/// What `plan` prints.
pub(crate) fn show_in<S: Shelf>(
    alloc: Global,
    lang: Lang,
    file: &Text,
    script: &Option<Text>,
    shelf: &mut S,
) -> Result<Bytes, Stop>
    ensures later { S.faults shelf.old ≤ S.faults shelf.new }
    ensures passes { Passes (of_show (source_in lang) file.now script.now) (S.held shelf.old)
        (Rose S.stays_at_last (S.faults shelf.old) (S.faults shelf.new)) result }
{
    match lang {
        Lang::River => show::<River, S>(alloc, file, script, shelf),
        Lang::Streamit => show::<Streamit, S>(alloc, file, script, shelf),
        Lang::Params => show::<Params, S>(alloc, file, script, shelf),
        Lang::Sawzall => show::<Sawzall, S>(alloc, file, script, shelf),
        Lang::Cql => show::<Cql, S>(alloc, file, script, shelf),
    }
}

/// What `mean` prints.
pub(crate) fn mean_in<S: Shelf>(
    alloc: Global,
    lang: Lang,
    file: &Text,
    ins: &InWords,
    header: bool,
    shelf: &mut S,
) -> Result<Bytes, Stop>
    ensures later { S.faults shelf.old ≤ S.faults shelf.new }
    ensures passes { Passes (of_mean (source_in lang) (takes_more lang) file.now ins.now header) (S.held shelf.old)
        (Rose S.stays_at_last (S.faults shelf.old) (S.faults shelf.new)) result }
{
    match lang {
        Lang::River => mean::<River, S>(alloc, file, ins, header, shelf),
        Lang::Streamit => mean::<Streamit, S>(alloc, file, ins, header, shelf),
        Lang::Params => mean::<Params, S>(alloc, file, ins, header, shelf),
        Lang::Sawzall => mean::<Sawzall, S>(alloc, file, ins, header, shelf),
        Lang::Cql => mean::<Cql, S>(alloc, file, ins, header, shelf),
    }
}
