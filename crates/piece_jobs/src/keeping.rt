// What is kept for the next call.
ghost use Rattle.std.specs.Prelude.{◌≡◌, ◌≤◌, ◌<◌, ◌-◌, ◌++◌, codes, length, take, OnOk, OnErr, IfErr};
ghost use Rattle.std.specs.List.{AllByRecursion};
ghost use Rattle.piece_files.specs.Held.{IfHeld};
ghost use Rattle.piece_keep.specs.Mark.{sum_of};
ghost use Rattle.river_outside.specs.Causes.{Rose};
ghost use Rattle.piece_jobs.specs.Keeping.{IsKept, IsKeptFrom, MaybePutKept, PutKept, WhyNotKept, WhyUnkept};
ghost use Rattle.piece_jobs.specs.Merged.{HaveCome};
ghost use Rattle.piece_jobs.specs.Verdict.{IsDone};

use crate::Came;
use crate::fetched::fetch_file;
use crate::finish::{merged, tables_of};
use crate::plan::read_plan;
use piece_files::{JobFile, JobFiles};
use piece_keep::whole_mark;
use piece_work::WorkFault;
use std::alloc::Global;

/// Keeps, for the next call, the tables of what is kept of an earlier call, if anything is, and of what all jobs but the last
/// printed; nothing where there is one job.
pub(crate) fn keep_found<J: JobFiles, K: JobFiles>(
    alloc: Global,
    files: &mut J,
    keep: &mut K,
    kept: bool,
    found: &[Option<Came>],
) -> Result<(), WorkFault>
    requires came { IfHeld (J.held files.old) (λ h. HaveCome h found.now) }
    requires done { AllByRecursion IsDone found.now }
    ensures stays { J.held files.new ≡ J.held files.old }
    ensures later { J.faults files.old ≤ J.faults files.new }
    ensures keep_later { K.faults keep.old ≤ K.faults keep.new }
    ensures kept { OnOk result (IfHeld (J.held files.old) (λ h. IsKept h kept found.now (K.held keep.old) (K.held keep.new))) }
    ensures refused { IfErr result (WhyNotKept (J.held files.old) (Rose J.stays_at_last (J.faults files.old) (J.faults files.new))
        (Rose K.stays_at_last (K.faults keep.old) (K.faults keep.new))) }
{
    if found.len() < 2 {
        return Ok(());
    }
    let front = fetch_file(alloc, files, JobFile::Mark)?;
    keep_front(alloc, files, keep, kept, found, front.as_slice())
}

// Keeps the tables of what is kept of an earlier call, if anything is, and of what all jobs but the last printed. The mark of it begins
// with `front`.
#[tactic(auto, using(crate::proofs::Keeps::fronts))]
fn keep_front<J: JobFiles, K: JobFiles>(
    alloc: Global,
    files: &mut J,
    keep: &mut K,
    kept: bool,
    found: &[Option<Came>],
    front: &[u8],
) -> Result<(), WorkFault>
    requires some { 0 < length found.now }
    requires came { IfHeld (J.held files.old) (λ h. HaveCome h found.now) }
    requires done { AllByRecursion IsDone found.now }
    ensures stays { J.held files.new ≡ J.held files.old }
    ensures later { J.faults files.old ≤ J.faults files.new }
    ensures keep_later { K.faults keep.old ≤ K.faults keep.new }
    ensures kept { OnOk result (IfHeld (J.held files.old) (λ h. IsKeptFrom h kept (take (length found.now - 1) found.now) front.now (K.held keep.old) (K.held keep.new))) }
    ensures refused { IfErr result (WhyNotKept (J.held files.old) (Rose J.stays_at_last (J.faults files.old) (J.faults files.new))
        (Rose K.stays_at_last (K.faults keep.old) (K.faults keep.new))) }
{
    keep_jobs(alloc, files, keep, kept, &found[..found.len() - 1], front)
}

// Keeps the tables of what is kept of an earlier call, if anything is, and of what these jobs printed.
fn keep_jobs<J: JobFiles, K: JobFiles>(
    alloc: Global,
    files: &mut J,
    keep: &mut K,
    kept: bool,
    found: &[Option<Came>],
    front: &[u8],
) -> Result<(), WorkFault>
    requires came { IfHeld (J.held files.old) (λ h. HaveCome h found.now) }
    requires done { AllByRecursion IsDone found.now }
    ensures stays { J.held files.new ≡ J.held files.old }
    ensures later { J.faults files.old ≤ J.faults files.new }
    ensures keep_later { K.faults keep.old ≤ K.faults keep.new }
    ensures kept { OnOk result (IfHeld (J.held files.old) (λ h. IsKeptFrom h kept found.now front.now (K.held keep.old) (K.held keep.new))) }
    ensures refused { IfErr result (WhyNotKept (J.held files.old) (Rose J.stays_at_last (J.faults files.old) (J.faults files.new))
        (Rose K.stays_at_last (K.faults keep.old) (K.faults keep.new))) }
{
    let plan = read_plan(alloc, files)?;
    let tables = merged(alloc, files, tables_of(&plan), kept, found)?;
    put_kept(alloc, keep, tables.as_slice(), front)
}

// Puts tables and their mark, the mark last.
fn put_kept<K: JobFiles>(
    alloc: Global,
    keep: &mut K,
    tables: &[u8],
    front: &[u8],
) -> Result<(), WorkFault>
    ensures later { K.faults keep.old ≤ K.faults keep.new }
    ensures put { OnOk result (PutKept tables.now (front.now ++ (sum_of tables.now ++ codes "\n")) (K.held keep.old) (K.held keep.new)) }
    ensures order { OnErr result (MaybePutKept tables.now (K.held keep.old) (K.held keep.new)) }
    ensures refused { IfErr result (WhyUnkept (Rose K.stays_at_last (K.faults keep.old) (K.faults keep.new))) }
{
    let mark = whole_mark(alloc, front, tables)?;
    keep.put(JobFile::Kept, tables)?;
    keep.put(JobFile::State, mark.as_slice())?;
    Ok(())
}
