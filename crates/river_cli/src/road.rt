// The road from the words to the text.
ghost use Rattle.std.specs.Prelude.{◌≡◌, ◌≤◌, Some, false, IsErrOf};
ghost use Rattle.command_line.specs.Commands.{by_tasks, is_live};
ghost use Rattle.command_line.specs.Sentences.{command_of};
ghost use Rattle.command_line.specs.declared.command.Command.{Command};
ghost use Rattle.river_langs.specs.Sources.{saw_in};
ghost use Rattle.river_outside.specs.Causes.{Rose};
ghost use Rattle.river_outside.specs.Decides.{Decides};
ghost use Rattle.river_outside.specs.Passes.{Answers, Passes};
ghost use Rattle.river_road.specs.Points.{loaded, of_run};
ghost use Rattle.river_cli.specs.Points.{points_of, of_command, source_in, takes_more};

use crate::langs::{gather_in, mean_in, show_in};
use crate::runs::{run_by_tasks, run_by_workers};
use command_line::{Capacity, Command, RunBy, RunWords, WordFault, Workers, read_words};
use free_runs::free;
use river_base::{Bytes, Gate, Text};
use river_langs::{River, Sawzall};
use river_outside::{Shelf, Stop};
use river_road::{gather_load, upgrade};
use std::alloc::Global;
use std::sync::Wait;
use std::thread::Threads;

const LOAD_WORKERS: u32 = 4;

const LOAD_CAP: u32 = 64;

/// The text that is the output of words without `-L`, or why there is none.
pub(crate) fn decide<R: Threads + Sync, S: Shelf, G: Gate + Sync>(
    rt: &R,
    alloc: Global,
    words: &[Text],
    shelf: &mut S,
    gate: &G,
) -> Result<Bytes, Stop>
    requires now { (command : Command) → command_of words.now ≡ Some command → is_live command ≡ false }
    ensures later { S.faults shelf.old ≤ S.faults shelf.new }
    ensures unread { IsErrOf result Stop.Usage → shelf.new ≡ shelf.old }
    ensures decided { Decides (points_of words.now) (S.held shelf.old) (Rose S.stays_at_last (S.faults shelf.old) (S.faults shelf.new)) result }
{
    match read_words(alloc, words) {
        Ok(command) => answered(rt, alloc, &command, shelf, gate),
        Err(WordFault::Usage) => Err(Stop::Usage),
        Err(WordFault::NoMemory) => Err(Stop::NoMemory),
    }
}

// What a command prints.
fn answered<R: Threads + Sync, S: Shelf, G: Gate + Sync>(
    rt: &R,
    alloc: Global,
    command: &Command,
    shelf: &mut S,
    gate: &G,
) -> Result<Bytes, Stop>
    requires now { is_live command.now ≡ false }
    ensures later { S.faults shelf.old ≤ S.faults shelf.new }
    ensures passes { Passes (of_command command.now) (S.held shelf.old) (Rose S.stays_at_last (S.faults shelf.old) (S.faults shelf.new)) result }
{
    match command {
        Command::Run(words) => run(rt, alloc, words, shelf, gate),
        Command::Plan { lang, file, script } => show_in(alloc, *lang, file, script, shelf),
        Command::Mean {
            lang,
            file,
            ins,
            header,
        } => mean_in(alloc, *lang, file, ins, *header, shelf),
        Command::Upgrade { file } => upgrade::<River, S>(alloc, file, shelf),
        Command::Load { number } => load(rt, alloc, *number, gate),
        Command::Free(words) => free(rt, alloc, words, shelf, gate),
    }
}

// What `run` prints, by workers.
fn run<R: Threads + Sync, S: Shelf, G: Gate + Sync>(
    rt: &R,
    alloc: Global,
    words: &RunWords,
    shelf: &mut S,
    gate: &G,
) -> Result<Bytes, Stop>
    requires now { by_tasks words.now.by ≡ false }
    ensures later { S.faults shelf.old ≤ S.faults shelf.new }
    ensures passes { Passes (of_run (source_in words.now.lang) (takes_more words.now.lang) words.now) (S.held shelf.old)
        (Rose S.stays_at_last (S.faults shelf.old) (S.faults shelf.new)) result }
{
    let gathered = gather_in(alloc, words, shelf)?;
    let workers = workers_of(words.by);
    Ok(run_by_workers(rt, alloc, gathered, workers, words.cap, words.counts, gate)?)
}

// How many workers there are, where a plan is run by workers.
fn workers_of(by: RunBy) -> Workers
    requires { by_tasks by ≡ false }
{
    match by {
        RunBy::Workers(workers) => workers,
        RunBy::Tasks => unreachable!(),
    }
}

// What `load` prints, by four workers.
fn load<R: Threads + Sync, G: Gate + Sync>(
    rt: &R,
    alloc: Global,
    number: u32,
    gate: &G,
) -> Result<Bytes, Stop>
    ensures { Answers (loaded saw_in number) result }
{
    let gathered = gather_load::<Sawzall>(alloc, number)?;
    let workers = Workers::new(LOAD_WORKERS);
    let cap = Capacity::new(LOAD_CAP);
    Ok(run_by_workers(rt, alloc, gathered, workers, cap, false, gate)?)
}

/// What `run -L` prints, by tasks that wait.
pub(crate) fn run_waiting<R: Threads + Wait + Sync, S: Shelf, G: Gate + Sync>(
    rt: &R,
    alloc: Global,
    words: &RunWords,
    shelf: &mut S,
    gate: &G,
) -> Result<Bytes, Stop>
    ensures later { S.faults shelf.old ≤ S.faults shelf.new }
    ensures passes { Passes (of_run (source_in words.now.lang) (takes_more words.now.lang) words.now) (S.held shelf.old)
        (Rose S.stays_at_last (S.faults shelf.old) (S.faults shelf.new)) result }
{
    let gathered = gather_in(alloc, words, shelf)?;
    Ok(run_by_tasks(rt, alloc, gathered, words.cap, words.counts, gate)?)
}
