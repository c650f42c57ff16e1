// What is to be done next.
ghost use Rattle.std.specs.Prelude.{◌≡◌, ◌≤◌, ◌<◌, ◌^◌, length, None, IfOk, IfErr, OnOk, OnErr, MatchOption};
ghost use Rattle.piece_files.specs.Held.{IfHeld};
ghost use Rattle.river_outside.specs.Causes.{Rose};
ghost use Rattle.piece_jobs.specs.Keeping.{KeepsBy, KeepsNext, WhyNotKept};
ghost use Rattle.piece_jobs.specs.Looked.{AreCame};
ghost use Rattle.piece_jobs.specs.Next.{Follows, IsNext, PutBoth, ReadsProgress, WhyNotNext};
ghost use Rattle.piece_jobs.specs.Verdict.{BehindSome, IsThere};

use crate::fetched::fetch_file;
use crate::finish::finish;
use crate::keeping::keep_found;
use crate::list::list_of_lacking;
use crate::told::told;
use crate::{Came, Progress, Verdict, judge, look};
use piece_files::{JobFile, JobFiles};
use piece_work::WorkFault;
use river_base::Bytes;
use river_outside::Failed;
use std::alloc::Global;

/// How many tries a job has.
pub const MOST_TURNS: u32 = 3;

/// What is to be done next.
#[derive(Drop)]
pub enum Next {
    /// The list has the jobs that did not come: they are to be run once more.
    Again,
    /// This job, from 1, did not come whole in three tries.
    Lost { job: u64 },
    /// A job was refused, and this is to be told.
    Refused { told: Bytes },
    /// All came, and what is to be printed is written.
    Done,
}

/// Looks which jobs came whole. Where some did not, it lists them for one try more, of three; otherwise it tells why the first that was
/// refused was; otherwise it writes what all that the jobs printed comes to.
///
/// # Errors
///
/// `Absent` or `Large` where the progress or the program is not there, or too large; `Unread` and `Unwritten` where the folder failed;
/// `Program` where the program is refused; `Other` where there is no progress, or a job printed what no run of the program does.
pub fn go_on<J: JobFiles>(alloc: Global, files: &mut J) -> Result<Next, WorkFault>
    ensures later { J.faults files.old ≤ J.faults files.new }
    ensures next { IfOk result (λ next. IfHeld (J.held files.old) (λ h. IsNext h (J.held files.new) next)) }
    ensures refused { IfErr result (WhyNotNext (J.held files.old) (Rose J.stays_at_last (J.faults files.old) (J.faults files.new))) }
{
    let progress = read_progress(alloc, files)?;
    let found = look(alloc, files, progress.jobs, progress.turn)?;
    follow(alloc, files, progress, found.as_slice())
}

/// The same; and where all came, what is kept of an earlier call, if anything is, and what all jobs but the last printed is kept for the
/// next call in the folder `keep`. Where there is one job, that folder stays as it is.
///
/// # Errors
///
/// Those, and `Absent` where the folder has no beginning of a mark; `Unwritten` where the other folder failed.
pub fn go_on_keeping<J: JobFiles, K: JobFiles>(
    alloc: Global,
    files: &mut J,
    keep: &mut K,
) -> Result<Next, WorkFault>
    ensures later { J.faults files.old ≤ J.faults files.new }
    ensures keep_later { K.faults keep.old ≤ K.faults keep.new }
    ensures next { IfOk result (λ next. IfHeld (J.held files.old) (λ h. IsNext h (J.held files.new) next)) }
    ensures kept { IfOk result (λ next. IfHeld (J.held files.old) (λ h. KeepsNext h (K.held keep.old) (K.held keep.new) next)) }
    ensures refused { IfErr result (WhyNotKept (J.held files.old) (Rose J.stays_at_last (J.faults files.old) (J.faults files.new))
        (Rose K.stays_at_last (K.faults keep.old) (K.faults keep.new))) }
{
    let progress = read_progress(alloc, files)?;
    let found = look(alloc, files, progress.jobs, progress.turn)?;
    follow_keeping(alloc, files, keep, progress, found.as_slice())
}

// What follows from what came of the jobs, with what is kept.
fn follow_keeping<J: JobFiles, K: JobFiles>(
    alloc: Global,
    files: &mut J,
    keep: &mut K,
    progress: Progress,
    found: &[Option<Came>],
) -> Result<Next, WorkFault>
    requires many { length found.now ≡ progress.jobs }
    requires came { IfHeld (J.held files.old) (λ h. AreCame h progress.turn 1 found.now) }
    ensures later { J.faults files.old ≤ J.faults files.new }
    ensures keep_later { K.faults keep.old ≤ K.faults keep.new }
    ensures follows { IfOk result (λ next. IfHeld (J.held files.old) (λ h. Follows h (J.held files.new) progress found.now next)) }
    ensures kept { IfOk result (λ next. IfHeld (J.held files.old) (λ h. KeepsBy h progress found.now (K.held keep.old) (K.held keep.new) next)) }
    ensures refused { IfErr result (WhyNotKept (J.held files.old) (Rose J.stays_at_last (J.faults files.old) (J.faults files.new))
        (Rose K.stays_at_last (K.faults keep.old) (K.faults keep.new))) }
{
    match judge(found) {
        Verdict::Done => {
            keep_found(alloc, files, keep, progress.kept, found)?;
            finish(alloc, files, progress.kept, found)?;
            Ok(Next::Done)
        }
        Verdict::Lacking { .. } => follow(alloc, files, progress, found),
        Verdict::Refused { .. } => follow(alloc, files, progress, found),
    }
}

// What the folder says of its progress.
fn read_progress<J: JobFiles>(alloc: Global, files: &mut J) -> Result<Progress, WorkFault>
    ensures stays { J.held files.new ≡ J.held files.old }
    ensures later { J.faults files.old ≤ J.faults files.new }
    ensures says { IfOk result (λ p. IfHeld (J.held files.old) (λ h. ReadsProgress h p)) }
    ensures refused { IfErr result (WhyNotNext (J.held files.old) (Rose J.stays_at_last (J.faults files.old) (J.faults files.new))) }
{
    let text = fetch_file(alloc, files, JobFile::State)?;
    Progress::read(alloc, &text)
}

// What follows from what came of the jobs.
#[tactic(auto, using(crate::proofs::Follows::follows))]
fn follow<J: JobFiles>(
    alloc: Global,
    files: &mut J,
    progress: Progress,
    found: &[Option<Came>],
) -> Result<Next, WorkFault>
    requires many { length found.now ≡ progress.jobs }
    requires came { IfHeld (J.held files.old) (λ h. AreCame h progress.turn 1 found.now) }
    ensures later { J.faults files.old ≤ J.faults files.new }
    ensures follows { IfOk result (λ next. IfHeld (J.held files.old) (λ h. Follows h (J.held files.new) progress found.now next)) }
    ensures refused { IfErr result (WhyNotNext (J.held files.old) (Rose J.stays_at_last (J.faults files.old) (J.faults files.new))) }
{
    match judge(found) {
        Verdict::Lacking { place } => again(alloc, files, progress, found, place as u64),
        Verdict::Refused { place, turn } => {
            let told = told(
                alloc,
                files,
                progress.header,
                progress.before,
                place as u64,
                turn,
            )?;
            Ok(Next::Refused { told })
        }
        Verdict::Done => {
            finish(alloc, files, progress.kept, found)?;
            Ok(Next::Done)
        }
    }
}

// Lists the jobs that did not come for one try more, if there is one. The first of them stands behind so many.
fn again<J: JobFiles>(
    alloc: Global,
    files: &mut J,
    progress: Progress,
    found: &[Option<Came>],
    place: u64,
) -> Result<Next, WorkFault>
    requires few { place < 2 ^ 32 }
    requires lacks { BehindSome IsThere place None found.now }
    ensures later { J.faults files.old ≤ J.faults files.new }
    ensures follows { IfOk result (λ next. IfHeld (J.held files.old) (λ h. Follows h (J.held files.new) progress found.now next)) }
    ensures refused { IfErr result (WhyNotNext (J.held files.old) (Rose J.stays_at_last (J.faults files.old) (J.faults files.new))) }
{
    if progress.turn >= MOST_TURNS {
        return Ok(Next::Lost { job: place + 1 });
    }
    let turn = progress.turn + 1;
    let list = list_of_lacking(alloc, found, turn)?;
    let state = Progress { turn, ..progress }.text(alloc)?;
    retry(files, list.as_slice(), state.as_slice())?;
    Ok(Next::Again)
}

// Writes the list and the progress.
fn retry<J: JobFiles>(files: &mut J, list: &[u8], state: &[u8]) -> Result<(), Failed>
    ensures later { J.faults files.old ≤ J.faults files.new }
    ensures put { OnOk result (IfHeld (J.held files.old) (λ h. MatchOption (J.held files.new) ⊥ (PutBoth list.now state.now h))) }
    ensures failed { OnErr result (Rose J.stays_at_last (J.faults files.old) (J.faults files.new)) }
{
    files.put(JobFile::List, list)?;
    files.put(JobFile::State, state)
}
