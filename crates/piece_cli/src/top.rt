// The top call.
ghost use Rattle.std.specs.Prelude.{◌≡◌, ◌≤◌, true};
ghost use Rattle.std.specs.Option.{option_map};
ghost use Rattle.piece_cli.specs.Does.{BeginEnds, Does, GrownEnds, KeptEnds, NextEnds, PrintEnds, HasPrinted};
ghost use Rattle.piece_cli.specs.Sentences.{asked, asked_by};
ghost use Rattle.piece_files.specs.Counts.{with_more};
ghost use Rattle.river_outside.specs.Causes.{Rose};

use crate::command::{Command, Keeping, command_of};
use crate::tell::{tell, tell_begun, tell_grown, tell_next, tell_printed};
use csv_cuts::Size;
use piece_begin::{Call, begin, begin_kept, print};
use piece_files::{Inputs, JobFiles};
use piece_jobs::{go_on, go_on_keeping};
use piece_work::WorkFault;
use river_base::Text;
use river_outside::{Shelf, Sink};
use std::alloc::Global;

// How many bytes a piece has at most: 64 MiB, what a run takes.
const MOST_BYTES: usize = 67_108_864;

// What is written where the words are no sentence.
const USAGE: &[u8] =
    b"usage: pieces begin DIR SIZE sawzall PROGRAM in=FILE [-H] [--keep FOLDER] | next DIR [--keep FOLDER] | print DIR\n";

/// Does what the words say in the work folder that they name, whose files are those of `inputs`, and answers the status to end with.
/// Files that are not of the folder are read from the shelf. `keep` is the folder in which something is kept for the next call, where
/// the words name one. `out` takes what is printed, `err` what is told.
///
/// 0: all jobs are done, or what was made is printed. 10: the list has jobs that are to be run. 11: it has those that did not come.
/// 1: refused. 2: the words are no sentence. 3: a file could not be read, or a job did not come. 4: a write failed. 5: no memory.
pub fn pieces<S: Shelf, J: JobFiles, K: JobFiles, O: Sink, E: Sink>(
    alloc: Global,
    words: &[Text],
    shelf: &mut S,
    inputs: &mut Inputs<J>,
    keep: &mut K,
    out: &mut O,
    err: &mut E,
) -> u8
    requires none { inputs.old.count ≡ 0 }
    ensures stays { S.held shelf.new ≡ S.held shelf.old }
    ensures does { Does (asked words.now) (S.held shelf.old) (shelf.new ≡ shelf.old)
        (Rose S.stays_at_last (S.faults shelf.old) (S.faults shelf.new)) (J.held inputs.old.files) (J.held inputs.new.files)
        (Rose true (with_more (J.faults inputs.old.files) inputs.old.unnumbered) (with_more (J.faults inputs.new.files) inputs.new.unnumbered))
        (Rose J.stays_at_last (J.faults inputs.old.files) (J.faults inputs.new.files))
        (K.held keep.old) (K.held keep.new) (Rose K.stays_at_last (K.faults keep.old) (K.faults keep.new))
        (O.taken out.old) (O.taken out.new) (Rose O.stays_at_last (O.faults out.old) (O.faults out.new))
        (E.taken err.old) (E.taken err.new) (Rose E.stays_at_last (E.faults err.old) (E.faults err.new)) result }
{
    obey(alloc, command_of(words), shelf, inputs, keep, out, err)
}

// Does what is asked for.
fn obey<S: Shelf, J: JobFiles, K: JobFiles, O: Sink, E: Sink>(
    alloc: Global,
    command: Option<Command<'_>>,
    shelf: &mut S,
    inputs: &mut Inputs<J>,
    keep: &mut K,
    out: &mut O,
    err: &mut E,
) -> u8
    requires none { inputs.old.count ≡ 0 }
    ensures stays { S.held shelf.new ≡ S.held shelf.old }
    ensures does { Does (option_map asked_by command.entry) (S.held shelf.old) (shelf.new ≡ shelf.old)
        (Rose S.stays_at_last (S.faults shelf.old) (S.faults shelf.new)) (J.held inputs.old.files) (J.held inputs.new.files)
        (Rose true (with_more (J.faults inputs.old.files) inputs.old.unnumbered) (with_more (J.faults inputs.new.files) inputs.new.unnumbered))
        (Rose J.stays_at_last (J.faults inputs.old.files) (J.faults inputs.new.files))
        (K.held keep.old) (K.held keep.new) (Rose K.stays_at_last (K.faults keep.old) (K.faults keep.new))
        (O.taken out.old) (O.taken out.new) (Rose O.stays_at_last (O.faults out.old) (O.faults out.new))
        (E.taken err.old) (E.taken err.new) (Rose E.stays_at_last (E.faults err.old) (E.faults err.new)) result }
{
    match command {
        Some(
            Command::Begin {
                size,
                program,
                file,
                header,
                keep: keeping,
                ..
            },
        ) => {
            let size = Size {
                records: size as usize,
                bytes: MOST_BYTES,
            };
            let call = Call {
                program,
                file,
                header,
                size,
            };
            match keeping {
                Keeping::Nothing => begin_told(alloc, shelf, &call, inputs, err),
                Keeping::In(_) => grown_told(alloc, shelf, &call, inputs, keep, err),
            }
        }
        Some(Command::Next { keep: keeping, .. }) => match keeping {
            Keeping::Nothing => next_told(alloc, &mut inputs.files, err),
            Keeping::In(_) => kept_told(alloc, &mut inputs.files, keep, err),
        },
        Some(Command::Print { .. }) => print_told(alloc, &mut inputs.files, out, err),
        None => tell(err, USAGE, 2),
    }
}

// The first call.
fn begin_told<S: Shelf, J: JobFiles, E: Sink>(
    alloc: Global,
    shelf: &mut S,
    call: &Call<'_>,
    inputs: &mut Inputs<J>,
    err: &mut E,
) -> u8
    requires none { inputs.old.count ≡ 0 }
    ensures stays { S.held shelf.new ≡ S.held shelf.old }
    ensures ends { BeginEnds call.now.size.bytes call.now.program.now call.now.file.now call.now.header (S.held shelf.old)
        (Rose S.stays_at_last (S.faults shelf.old) (S.faults shelf.new)) (J.held inputs.old.files) (J.held inputs.new.files)
        (Rose true (with_more (J.faults inputs.old.files) inputs.old.unnumbered) (with_more (J.faults inputs.new.files) inputs.new.unnumbered))
        (E.taken err.old) (E.taken err.new) (Rose E.stays_at_last (E.faults err.old) (E.faults err.new)) result }
{
    let came = begin(alloc, shelf, call, inputs);
    tell_begun(came, err)
}

// The first call, where something may be kept.
fn grown_told<S: Shelf, J: JobFiles, K: JobFiles, E: Sink>(
    alloc: Global,
    shelf: &mut S,
    call: &Call<'_>,
    inputs: &mut Inputs<J>,
    keep: &mut K,
    err: &mut E,
) -> u8
    requires none { inputs.old.count ≡ 0 }
    ensures stays { S.held shelf.new ≡ S.held shelf.old }
    ensures keep_stays { K.held keep.new ≡ K.held keep.old }
    ensures ends { GrownEnds call.now.size.bytes call.now.program.now call.now.file.now call.now.header (S.held shelf.old)
        (Rose S.stays_at_last (S.faults shelf.old) (S.faults shelf.new)) (J.held inputs.old.files) (J.held inputs.new.files)
        (Rose true (with_more (J.faults inputs.old.files) inputs.old.unnumbered) (with_more (J.faults inputs.new.files) inputs.new.unnumbered))
        (K.held keep.old) (Rose K.stays_at_last (K.faults keep.old) (K.faults keep.new))
        (E.taken err.old) (E.taken err.new) (Rose E.stays_at_last (E.faults err.old) (E.faults err.new)) result }
{
    let came = begin_kept(alloc, shelf, call, inputs, keep);
    tell_grown(came, err)
}

// A call between.
fn next_told<J: JobFiles, E: Sink>(alloc: Global, files: &mut J, err: &mut E) -> u8
    ensures { NextEnds (J.held files.old) (J.held files.new) (Rose J.stays_at_last (J.faults files.old) (J.faults files.new))
        (E.taken err.old) (E.taken err.new) (Rose E.stays_at_last (E.faults err.old) (E.faults err.new)) result }
{
    let came = go_on(alloc, files);
    tell_next(alloc, files, came, err)
}

// A call between, where something is kept for the next call.
fn kept_told<J: JobFiles, K: JobFiles, E: Sink>(
    alloc: Global,
    files: &mut J,
    keep: &mut K,
    err: &mut E,
) -> u8
    ensures { KeptEnds (J.held files.old) (J.held files.new) (Rose J.stays_at_last (J.faults files.old) (J.faults files.new))
        (K.held keep.old) (K.held keep.new) (Rose K.stays_at_last (K.faults keep.old) (K.faults keep.new))
        (E.taken err.old) (E.taken err.new) (Rose E.stays_at_last (E.faults err.old) (E.faults err.new)) result }
{
    let came = go_on_keeping(alloc, files, keep);
    tell_next(alloc, files, came, err)
}

// The last call.
fn print_told<J: JobFiles, O: Sink, E: Sink>(
    alloc: Global,
    files: &mut J,
    out: &mut O,
    err: &mut E,
) -> u8
    ensures stays { J.held files.new ≡ J.held files.old }
    ensures ends { PrintEnds (J.held files.old) (Rose J.stays_at_last (J.faults files.old) (J.faults files.new))
        (O.taken out.old) (O.taken out.new) (Rose O.stays_at_last (O.faults out.old) (O.faults out.new))
        (E.taken err.old) (E.taken err.new) (Rose E.stays_at_last (E.faults err.old) (E.faults err.new)) result }
{
    let wrong = wrong_of(alloc, files, out);
    tell_printed(wrong, err)
}

// Prints; answers what is wrong, if anything is.
fn wrong_of<J: JobFiles, O: Sink>(alloc: Global, files: &mut J, out: &mut O) -> Option<WorkFault>
    ensures stays { J.held files.new ≡ J.held files.old }
    ensures later { J.faults files.old ≤ J.faults files.new }
    ensures is { HasPrinted (J.held files.old) (Rose J.stays_at_last (J.faults files.old) (J.faults files.new))
        (O.taken out.old) (O.taken out.new) (Rose O.stays_at_last (O.faults out.old) (O.faults out.new)) result }
{
    match print(alloc, files, out) {
        Ok(()) => None,
        Err(fault) => Some(fault),
    }
}
