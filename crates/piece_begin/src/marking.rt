// What the mark begins with of what may be kept.
ghost use Rattle.std.specs.Prelude.{◌≡◌, ◌≤◌, ◌-◌, ◌⊎◌, ℕ, List, Some, OnOk, IfOk, IfErr};
ghost use Rattle.sha2.specs.Hashers.{Holds256};
ghost use Rattle.river_outside.specs.Causes.{Rose};
ghost use Rattle.piece_files.specs.Held.{IfHeld, Put};
ghost use Rattle.piece_files.specs.declared.file.JobFile.TheVariants as the_file;
ghost use Rattle.piece_keep.specs.Fed.{WhyUnfed};
ghost use Rattle.piece_begin.specs.Faults.{WhyUnput};
ghost use Rattle.piece_begin.specs.Grown.{begun_mark};

use piece_files::{JobFile, JobFiles};
use piece_keep::{Front, feed_inputs, mark_front};
use piece_work::WorkFault;
use river_base::{Bytes, NoMemory};
use sha2::Sha256;
use std::alloc::Global;

/// Puts what the mark begins with of what may be kept of so many jobs: it is of the front before them, and of the records of all of
/// them but the last.
pub(crate) fn put_mark<J: JobFiles>(
    alloc: Global,
    files: &mut J,
    header: bool,
    text: &[u8],
    front: &Front,
    jobs: u32,
) -> Result<(), WorkFault>
    ensures later { J.faults files.old ≤ J.faults files.new }
    ensures put { OnOk result ((m : List ℕ) → Holds256 front.now.hasher m → IfHeld (J.held files.old) (λ w. Put the_file.Mark
        (begun_mark text.now header m front.now.extent w (jobs - 1)) (Some w) (J.held files.new))) }
    ensures refused { IfErr result (λ fault. WhyUnput (Rose J.stays_at_last (J.faults files.old) (J.faults files.new)) fault
        ⊎ WhyUnfed (J.held files.new) (Rose J.stays_at_last (J.faults files.old) (J.faults files.new)) fault) }
{
    let mark = mark_of(alloc, files, header, text, front, jobs)?;
    files.put(JobFile::Mark, mark.as_slice())?;
    Ok(())
}

// What it begins with.
fn mark_of<J: JobFiles>(
    alloc: Global,
    files: &mut J,
    header: bool,
    text: &[u8],
    front: &Front,
    jobs: u32,
) -> Result<Bytes, WorkFault>
    ensures stays { J.held files.new ≡ J.held files.old }
    ensures later { J.faults files.old ≤ J.faults files.new }
    ensures mark { IfOk result (λ mark. (m : List ℕ) → Holds256 front.now.hasher m → IfHeld (J.held files.old) (λ w. mark
        ≡ begun_mark text.now header m front.now.extent w (jobs - 1))) }
    ensures refused { IfErr result (WhyUnfed (J.held files.new) (Rose J.stays_at_last (J.faults files.old) (J.faults files.new))) }
{
    let mut hasher = copied(&front.hasher)?;
    let extent = feed_inputs(
        alloc,
        files,
        jobs.saturating_sub(1),
        front.extent,
        &mut hasher,
    )?;
    Ok(mark_front(alloc, extent, header, hasher, text)?)
}

// A second hasher that was fed with the same.
fn copied(hasher: &Sha256) -> Result<Sha256, NoMemory>
    ensures { IfOk result (λ copy. copy ≡ hasher.now) }
{
    Ok(hasher.clone()?)
}
