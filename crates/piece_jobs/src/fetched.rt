// Files of a work folder that are read.
ghost use Rattle.std.specs.Prelude.{◌≡◌, ◌≤◌, IfOk, IfErr};
ghost use Rattle.river_outside.specs.Causes.{Rose};
ghost use Rattle.river_outside.specs.Fetched.{FetchesAll};
ghost use Rattle.piece_files.specs.Held.{IfHeld};
ghost use Rattle.piece_work.specs.Faults.{most_file};
ghost use Rattle.piece_jobs.specs.Fetched.{IsFound, WhyUnfetched, WhyUnseen};

use piece_files::{JobFile, JobFiles};
use piece_work::WorkFault;
use river_base::Bytes;
use river_outside::FetchFault;
use std::alloc::Global;

// How many bytes of a file are read at most: 1 TiB.
const MOST: u64 = 1_099_511_627_776;

/// All bytes of a file, of at most 1 TiB.
pub fn fetch_file<J: JobFiles>(
    alloc: Global,
    files: &mut J,
    file: JobFile,
) -> Result<Bytes, WorkFault>
    ensures stays { J.held files.new ≡ J.held files.old }
    ensures later { J.faults files.old ≤ J.faults files.new }
    ensures bytes { IfOk result (λ got. IfHeld (J.held files.old) (λ h. FetchesAll (h file) most_file got)) }
    ensures refused { IfErr result (WhyUnfetched (J.held files.old) (Rose J.stays_at_last (J.faults files.old) (J.faults files.new)) file) }
{
    match files.fetch(alloc, file, MOST) {
        Ok(bytes) => Ok(bytes),
        Err(FetchFault::Absent) => Err(WorkFault::Absent),
        Err(FetchFault::Failed) => Err(WorkFault::Unread),
        Err(FetchFault::Large) => Err(WorkFault::Large),
        Err(FetchFault::NoMemory) => Err(WorkFault::NoMemory),
    }
}

/// The same; none where the file is not there, or is larger.
pub(crate) fn find_file<J: JobFiles>(
    alloc: Global,
    files: &mut J,
    file: JobFile,
) -> Result<Option<Bytes>, WorkFault>
    ensures stays { J.held files.new ≡ J.held files.old }
    ensures later { J.faults files.old ≤ J.faults files.new }
    ensures found { IfOk result (λ found. IfHeld (J.held files.old) (λ h. IsFound (h file) found)) }
    ensures refused { IfErr result (WhyUnseen (Rose J.stays_at_last (J.faults files.old) (J.faults files.new))) }
{
    match files.fetch(alloc, file, MOST) {
        Ok(bytes) => Ok(Some(bytes)),
        Err(FetchFault::Absent | FetchFault::Large) => Ok(None),
        Err(FetchFault::Failed) => Err(WorkFault::Unread),
        Err(FetchFault::NoMemory) => Err(WorkFault::NoMemory),
    }
}
