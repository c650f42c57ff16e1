// Runs a case over memory.
ghost use Rattle.std.specs.Thread.{IsSync};

use crate::case::{Case, Words};
use crate::fault::CaseFault;
use crate::layout::{shelf_of, sink_of};
use crate::report::{Ran, show_more, show_wrong};
use river_base::{NoMemory, Text};
use river_outside::{MemShelf, MemSink};
use std::alloc::Global;
use std::sync::Wait;
use std::thread::Threads;

/// What is run.
pub trait Runner {
    /// Does what the words say, and answers the status to end with.
    fn run<R: Threads + Wait + Sync>(
        &self,
        rt: &R,
        words: &[Text],
        shelf: &mut MemShelf,
        out: &mut MemSink,
        err: &mut MemSink,
    ) -> u8
        requires { IsSync R.row };
}

/// Whether a case gives what it says; where it runs a program, also with each of these lists of words behind its own. What it
/// gave is printed where it does not.
pub(crate) fn tries<R: Print + Threads + Wait + Sync, T: Runner>(
    rt: &R,
    alloc: Global,
    runner: &T,
    case: &Case,
    besides: &[Words],
) -> Result<bool, CaseFault> {
    let is_right = tries_by(rt, alloc, runner, case, case.words.as_slice())?;
    if !is_right || !is_run(case) {
        return Ok(is_right);
    }
    for more in besides {
        if !tries_with(rt, alloc, runner, case, more.as_slice())? {
            return Ok(false);
        }
    }
    Ok(true)
}

// The same with more words behind those of the case.
fn tries_with<R: Print + Threads + Wait + Sync, T: Runner>(
    rt: &R,
    alloc: Global,
    runner: &T,
    case: &Case,
    more: &[Text],
) -> Result<bool, CaseFault> {
    let words = joined(alloc, case.words.as_slice(), more)?;
    let is_right = tries_by(rt, alloc, runner, case, words.as_slice())?;
    if !is_right {
        show_more(rt, more)?;
    }
    Ok(is_right)
}

// The words of one list, and then those of another.
fn joined(alloc: Global, words: &[Text], more: &[Text]) -> Result<Words, NoMemory> {
    let mut all = Words::new(alloc);
    add_words(alloc, words, &mut all)?;
    add_words(alloc, more, &mut all)?;
    Ok(all)
}

fn add_words(alloc: Global, words: &[Text], to: &mut Words) -> Result<(), NoMemory> {
    for word in words {
        to.push(Text::from_slice(alloc, word.as_slice())?)?;
    }
    Ok(())
}

// Whether the words are a sentence that runs a program, and say nothing of who runs it and of queues themselves.
fn is_run(case: &Case) -> bool {
    let words = case.words.as_slice();
    let runs = words
        .first()
        .is_some_and(|word| word.as_slice() == b"run".as_slice());
    let says = is_among(words, b"-w") || is_among(words, b"-L") || is_among(words, b"-q");
    runs && case.status != Some(2) && !says
}

fn is_among(words: &[Text], wanted: &[u8]) -> bool {
    for word in words {
        if word.as_slice() == wanted {
            return true;
        }
    }
    false
}

fn tries_by<R: Print + Threads + Wait + Sync, T: Runner>(
    rt: &R,
    alloc: Global,
    runner: &T,
    case: &Case,
    words: &[Text],
) -> Result<bool, CaseFault> {
    let mut shelf = shelf_of(alloc, case)?;
    tries_over(rt, alloc, runner, case, words, &mut shelf)
}

fn tries_over<R: Print + Threads + Wait + Sync, T: Runner>(
    rt: &R,
    alloc: Global,
    runner: &T,
    case: &Case,
    words: &[Text],
    shelf: &mut MemShelf,
) -> Result<bool, CaseFault> {
    let mut out = sink_of(alloc, &case.writes)?;
    tries_writing(rt, alloc, runner, case, words, shelf, &mut out)
}

fn tries_writing<R: Print + Threads + Wait + Sync, T: Runner>(
    rt: &R,
    alloc: Global,
    runner: &T,
    case: &Case,
    words: &[Text],
    shelf: &mut MemShelf,
    out: &mut MemSink,
) -> Result<bool, CaseFault> {
    let mut err = sink_of(alloc, &case.tells)?;
    let status = runner.run(rt, words, shelf, out, &mut err);
    let ran = Ran {
        status,
        out: out.taken(),
        err: err.taken(),
    };
    judge(rt, alloc, case, ran)
}

// Prints what a run gave where it is not just what the case says.
fn judge<R: Print>(rt: &R, alloc: Global, case: &Case, ran: Ran<'_>) -> Result<bool, CaseFault> {
    if is_right(case, ran) {
        return Ok(true);
    }
    show_wrong(rt, alloc, case.title.as_slice(), ran)?;
    Ok(false)
}

fn is_right(case: &Case, ran: Ran<'_>) -> bool {
    case.status == Some(ran.status)
        && ran.out == case.out.as_slice()
        && ran.err == case.err.as_slice()
}
