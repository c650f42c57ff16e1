// The top call.
ghost use Rattle.std.specs.Prelude.{◌≡◌, false, IfOk, Some};
ghost use Rattle.command_line.specs.Commands.{is_live};
ghost use Rattle.command_line.specs.Sentences.{command_of};
ghost use Rattle.command_line.specs.declared.command.Command.{Command};
ghost use Rattle.command_line.specs.declared.command.Command.TheVariants.{Free};
ghost use Rattle.command_line.specs.declared.command.FreeWords.{FreeWords};
ghost use Rattle.river_outside.specs.Causes.{Rose};
ghost use Rattle.river_cli.specs.Does.{Does};
ghost use Rattle.river_cli.specs.Free.{WroteJournal};
ghost use Rattle.river_cli.specs.Points.{points_of, live_asked};

use crate::road::{decide, run_waiting};
use crate::tell::tell;
use command_line::{RunWords, WordFault, read_words};
use river_base::{Gate, NoMemory, Text};
use river_outside::{Shelf, Sink};
use std::alloc::Global;
use std::sync::Wait;
use std::thread::Threads;

/// Does what words without `-L` say, and answers the status to end with. It returns.
pub fn river_now<R: Threads + Sync, S: Shelf, O: Sink, E: Sink, G: Gate + Sync>(
    rt: &R,
    alloc: Global,
    words: &[Text],
    shelf: &mut S,
    out: &mut O,
    err: &mut E,
    gate: &G,
) -> u8
    requires now { (command : Command) → command_of words.now ≡ Some command → is_live command ≡ false }
    ensures does { Does (points_of words.now) (S.held shelf.old) (shelf.new ≡ shelf.old) (Rose S.stays_at_last (S.faults shelf.old) (S.faults shelf.new))
        (O.taken out.old) (O.taken out.new) (Rose O.stays_at_last (O.faults out.old) (O.faults out.new))
        (E.taken err.old) (E.taken err.new) (Rose E.stays_at_last (E.faults err.old) (E.faults err.new)) result }
    ensures free { (w : FreeWords) → command_of words.now ≡ Some (Free w) → result ≡ 0 → WroteJournal w (S.held shelf.old) (O.taken out.old) (O.taken out.new) }
{
    let decided = decide(rt, alloc, words, shelf, gate);
    tell(decided, out, err)
}

/// Does what the words say, and answers the status to end with. Words without `-L` go through `river_now`; with it the plan is run by
/// tasks that wait for one another, and the call may not return.
pub fn river<R: Threads + Wait + Sync, S: Shelf, O: Sink, E: Sink, G: Gate + Sync>(
    rt: &R,
    alloc: Global,
    words: &[Text],
    shelf: &mut S,
    out: &mut O,
    err: &mut E,
    gate: &G,
) -> u8
    ensures does { Does (points_of words.now) (S.held shelf.old) (shelf.new ≡ shelf.old) (Rose S.stays_at_last (S.faults shelf.old) (S.faults shelf.new))
        (O.taken out.old) (O.taken out.new) (Rose O.stays_at_last (O.faults out.old) (O.faults out.new))
        (E.taken err.old) (E.taken err.new) (Rose E.stays_at_last (E.faults err.old) (E.faults err.new)) result }
    ensures free { (w : FreeWords) → command_of words.now ≡ Some (Free w) → result ≡ 0 → WroteJournal w (S.held shelf.old) (O.taken out.old) (O.taken out.new) }
{
    match live_asked(alloc, words) {
        Ok(None) => river_now(rt, alloc, words, shelf, out, err, gate),
        Ok(Some(run)) => {
            let decided = run_waiting(rt, alloc, &run, shelf, gate);
            tell(decided, out, err)
        }
        Err(NoMemory) => 5,
    }
}

// The run by tasks that wait which the words ask for, if they do.
fn live_asked(alloc: Global, words: &[Text]) -> Result<Option<RunWords>, NoMemory>
    ensures { IfOk result (λ run. run ≡ live_asked (command_of words.now)) }
{
    match read_words(alloc, words) {
        Ok(command) => Ok(command.into_live()),
        Err(WordFault::Usage) => Ok(None),
        Err(WordFault::NoMemory) => Err(NoMemory),
    }
}
