// What is told on the error output.
ghost use Rattle.std.specs.Prelude.{◌≡◌, ◌≤◌, IfOk};
ghost use Rattle.piece_cli.specs.Does.{IsLostText, IsShown, TellsBegun, TellsGrown, TellsLost, TellsNext, TellsPrinted};
ghost use Rattle.piece_cli.specs.Text.{Told, ToldFault, fault_line, fault_status, lost_text, refused_text};
ghost use Rattle.river_outside.specs.Causes.{Rose};

use piece_files::{JobFile, JobFiles};
use piece_jobs::{MOST_TURNS, Next};
use piece_work::WorkFault;
use river_base::{Bytes, NoMemory};
use river_outside::{Failed, Sink, put_all};
use std::alloc::Global;

// How many bytes are shown at most of what the last try of a lost job told.
const MOST_SHOWN: u64 = 65_536;

/// Tells a text; the status is `end`, or 4 where the sink failed.
pub(crate) fn tell<E: Sink>(err: &mut E, text: &[u8], end: u8) -> u8
    ensures { Told text.now end (E.taken err.old) (E.taken err.new) (Rose E.stays_at_last (E.faults err.old) (E.faults err.new)) result }
{
    match put_all(err, text) {
        Ok(()) => end,
        Err(Failed) => 4,
    }
}

// Tells a fault.
fn tell_fault<E: Sink>(err: &mut E, fault: WorkFault) -> u8
    ensures { ToldFault fault (E.taken err.old) (E.taken err.new) (Rose E.stays_at_last (E.faults err.old) (E.faults err.new)) result }
{
    tell(err, line_of(fault), status_of(fault))
}

const ABSENT: &[u8] = b"pieces: there is no such file\n";

const UNREAD: &[u8] = b"pieces: a file could not be read\n";

const LARGE: &[u8] = b"pieces: a file is too large, or has no place for a cut\n";

const NO_MEMORY: &[u8] = b"pieces: there is no memory\n";

const UNWRITTEN: &[u8] = b"pieces: what was to be written was not\n";

const REFUSED: &[u8] = b"pieces: the program is refused\n";

const OTHER: &[u8] = b"pieces: a job printed what no run of the program does\n";

const SILENT: &[u8] = b"pieces: a job was refused, and told nothing\n";

const CHANGED: &[u8] = b"pieces: what is kept is not of this file and program: all of it is run\n";

// What is told of a refused job, which may have told nothing.
fn refusal(told: &[u8]) -> &[u8]
    ensures { result.now ≡ refused_text told.now }
{
    if told.is_empty() { SILENT } else { told }
}

// What is told of a fault.
fn line_of(fault: WorkFault) -> &'static [u8]
    ensures { result.now ≡ fault_line fault }
{
    match fault {
        WorkFault::Absent => ABSENT,
        WorkFault::Unread => UNREAD,
        WorkFault::Large => LARGE,
        WorkFault::NoMemory => NO_MEMORY,
        WorkFault::Unwritten => UNWRITTEN,
        WorkFault::Program => REFUSED,
        WorkFault::Other => OTHER,
    }
}

// The status that goes with it.
fn status_of(fault: WorkFault) -> u8
    ensures { result ≡ fault_status fault }
{
    match fault {
        WorkFault::Absent | WorkFault::Unread | WorkFault::Large | WorkFault::Other => 3,
        WorkFault::NoMemory => 5,
        WorkFault::Unwritten => 4,
        WorkFault::Program => 1,
    }
}

/// Tells how the first call ended.
pub(crate) fn tell_begun<E: Sink>(came: Result<u32, WorkFault>, err: &mut E) -> u8
    ensures { TellsBegun came (E.taken err.old) (E.taken err.new) (Rose E.stays_at_last (E.faults err.old) (E.faults err.new)) result }
{
    match came {
        Ok(_) => 10,
        Err(fault) => tell_fault(err, fault),
    }
}

/// Tells how the first call ended where something may be kept; `changed` says that it is of something else.
pub(crate) fn tell_grown<E: Sink>(came: Result<bool, WorkFault>, err: &mut E) -> u8
    ensures { TellsGrown came (E.taken err.old) (E.taken err.new) (Rose E.stays_at_last (E.faults err.old) (E.faults err.new)) result }
{
    match came {
        Ok(false) => 10,
        Ok(true) => tell(err, CHANGED, 10),
        Err(fault) => tell_fault(err, fault),
    }
}

/// Tells how the last call ended.
pub(crate) fn tell_printed<E: Sink>(wrong: Option<WorkFault>, err: &mut E) -> u8
    ensures { TellsPrinted wrong (E.taken err.old) (E.taken err.new) (Rose E.stays_at_last (E.faults err.old) (E.faults err.new)) result }
{
    match wrong {
        None => 0,
        Some(fault) => tell_fault(err, fault),
    }
}

/// Tells how a call between them ended.
pub(crate) fn tell_next<J: JobFiles, E: Sink>(
    alloc: Global,
    files: &mut J,
    came: Result<Next, WorkFault>,
    err: &mut E,
) -> u8
    ensures stays { J.held files.new ≡ J.held files.old }
    ensures later { J.faults files.old ≤ J.faults files.new }
    ensures told { TellsNext came (J.held files.old) (E.taken err.old) (E.taken err.new) (Rose E.stays_at_last (E.faults err.old) (E.faults err.new)) result }
{
    match came {
        Ok(Next::Done) => 0,
        Ok(Next::Again) => 11,
        Ok(Next::Lost { job }) => tell_lost(alloc, files, job, err),
        Ok(Next::Refused { told }) => tell(err, refusal(told.as_slice()), 1),
        Err(fault) => tell_fault(err, fault),
    }
}

// Tells that a job is lost.
fn tell_lost<J: JobFiles, E: Sink>(alloc: Global, files: &mut J, job: u64, err: &mut E) -> u8
    ensures stays { J.held files.new ≡ J.held files.old }
    ensures later { J.faults files.old ≤ J.faults files.new }
    ensures told { TellsLost (J.held files.old) job (E.taken err.old) (E.taken err.new) (Rose E.stays_at_last (E.faults err.old) (E.faults err.new)) result }
{
    match lost_text(alloc, files, job) {
        Ok(text) => tell(err, text.as_slice(), 3),
        Err(NoMemory) => tell_fault(err, WorkFault::NoMemory),
    }
}

// What is told of a lost job.
fn lost_text<J: JobFiles>(alloc: Global, files: &mut J, job: u64) -> Result<Bytes, NoMemory>
    ensures stays { J.held files.new ≡ J.held files.old }
    ensures later { J.faults files.old ≤ J.faults files.new }
    ensures text { IfOk result (IsLostText (J.held files.old) job) }
{
    let shown = shown_of(alloc, files, job);
    lost_line(alloc, job, shown.as_slice())
}

// What the last try of a job told, or nothing.
fn shown_of<J: JobFiles>(alloc: Global, files: &mut J, job: u64) -> Bytes
    ensures stays { J.held files.new ≡ J.held files.old }
    ensures later { J.faults files.old ≤ J.faults files.new }
    ensures shown { IsShown (J.held files.old) job result }
{
    let turn = MOST_TURNS;
    match files.fetch(alloc, JobFile::Err { job, turn }, MOST_SHOWN) {
        Ok(told) => told,
        Err(_) => Bytes::new(alloc),
    }
}

// The line of a lost job, and what is shown behind it.
fn lost_line(alloc: Global, job: u64, shown: &[u8]) -> Result<Bytes, NoMemory>
    ensures { IfOk result (λ text. text ≡ lost_text job shown.now) }
{
    let mut text = Bytes::from_slice(alloc, b"pieces: job ")?;
    text.put_number(job)?;
    text.extend(b" did not come whole, 3 times\n")?;
    text.extend(shown)?;
    Ok(text)
}
