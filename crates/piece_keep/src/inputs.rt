// The sum of a front of a file that was cut, by the records of its jobs.
ghost use Rattle.std.specs.Prelude.{◌≡◌, ◌≤◌, ◌+◌, ℕ, List, length, IfOk, IfErr};
ghost use Rattle.river_outside.specs.Causes.{Rose};
ghost use Rattle.csv_streams.specs.Records.{csv_records};
ghost use Rattle.piece_files.specs.Held.{IfHeld};
ghost use Rattle.piece_keep.specs.Fed.{FedInput, FedInputs, WhyUnfed, input_of};

use crate::Extent;
use csv_cuts::records_in;
use piece_files::{JobFile, JobFiles};
use piece_work::WorkFault;
use river_base::{Bytes, NoMemory};
use river_outside::FetchFault;
use sha2::Digest;
use std::alloc::Global;

// How many bytes of a file are read at most: 1 TiB.
const MOST: u64 = 1_099_511_627_776;

/// Feeds a hasher with the records of so many jobs, from job 1 on. Where those of job 1 begin so far in the file that was cut as `from`
/// says, those of the last of these jobs end so far as is answered. A number of 2^64 and more is `NoMemory`.
pub fn feed_inputs<J: JobFiles, D: Digest>(
    alloc: Global,
    files: &mut J,
    jobs: u32,
    from: Extent,
    to: &mut D,
) -> Result<Extent, WorkFault>
    ensures stays { J.held files.new ≡ J.held files.old }
    ensures later { J.faults files.old ≤ J.faults files.new }
    ensures fed { IfOk result (λ end. (m : List ℕ) → D.holds to.old m → IfHeld (J.held files.old) (λ w. FedInputs (D.holds to.new) m w jobs from end)) }
    ensures refused { IfErr result (WhyUnfed (J.held files.old) (Rose J.stays_at_last (J.faults files.old) (J.faults files.new))) }
{
    let mut end = from;
    for before in 0..jobs {
        end = feed_input(alloc, files, u64::from(before) + 1, end, to)?;
    }
    Ok(end)
}

// Feeds a hasher with the records of a job, which begin so far in the file, and says how far they end.
fn feed_input<J: JobFiles, D: Digest>(
    alloc: Global,
    files: &mut J,
    job: u64,
    from: Extent,
    to: &mut D,
) -> Result<Extent, WorkFault>
    ensures stays { J.held files.new ≡ J.held files.old }
    ensures later { J.faults files.old ≤ J.faults files.new }
    ensures fed { IfOk result (λ end. (m : List ℕ) → D.holds to.old m → IfHeld (J.held files.old) (λ w. FedInput (D.holds to.new) m w job from end)) }
    ensures refused { IfErr result (WhyUnfed (J.held files.old) (Rose J.stays_at_last (J.faults files.old) (J.faults files.new))) }
{
    let piece = fetch_input(alloc, files, job)?;
    let end = extent_behind(from, piece.as_slice())?;
    to.update(piece.as_slice());
    Ok(end)
}

// How far records end that begin so far.
fn extent_behind(from: Extent, piece: &[u8]) -> Result<Extent, NoMemory>
    ensures at { IfOk result (λ end. end.at ≡ from.at + length piece.now) }
    ensures records { IfOk result (λ end. end.records ≡ from.records + length (csv_records piece.now)) }
{
    let at = added(from.at, piece.len())?;
    let records = added(from.records, records_in(piece))?;
    Ok(Extent { at, records })
}

// The sum of a number and a count.
fn added(number: u64, count: usize) -> Result<u64, NoMemory>
    ensures { IfOk result (λ sum. sum ≡ number + count) }
{
    match number.checked_add(count as u64) {
        Some(sum) => Ok(sum),
        None => Err(NoMemory),
    }
}

// The records of a job.
fn fetch_input<J: JobFiles>(alloc: Global, files: &mut J, job: u64) -> Result<Bytes, WorkFault>
    ensures stays { J.held files.new ≡ J.held files.old }
    ensures later { J.faults files.old ≤ J.faults files.new }
    ensures bytes { IfOk result (λ got. IfHeld (J.held files.old) (λ w. got ≡ input_of w job)) }
    ensures refused { IfErr result (WhyUnfed (J.held files.old) (Rose J.stays_at_last (J.faults files.old) (J.faults files.new))) }
{
    match files.fetch(alloc, JobFile::Input { job }, MOST) {
        Ok(bytes) => Ok(bytes),
        Err(FetchFault::Absent) => Err(WorkFault::Absent),
        Err(FetchFault::Failed) => Err(WorkFault::Unread),
        Err(FetchFault::Large) => Err(WorkFault::Large),
        Err(FetchFault::NoMemory) => Err(WorkFault::NoMemory),
    }
}
