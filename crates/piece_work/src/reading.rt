// Reads a file.
ghost use Rattle.std.specs.Prelude.{◌≡◌, ◌≤◌, length, IfOk, IfErr};
ghost use Rattle.river_outside.specs.Causes.{Rose};
ghost use Rattle.piece_work.specs.Faults.{Reads, WhyUnread};

use crate::WorkFault;
use river_base::Bytes;
use river_outside::{FetchFault, Shelf, fetch};
use std::alloc::Global;

/// How many bytes of a file are read at most: 1 TiB.
pub(crate) const MOST: u64 = 1_099_511_627_776;

/// The bytes of a file, at most so many.
pub fn read_file<S: Shelf>(
    alloc: Global,
    shelf: &mut S,
    file: &[u8],
    limit: u64,
) -> Result<Bytes, WorkFault>
    ensures stays { S.held shelf.new ≡ S.held shelf.old }
    ensures later { S.faults shelf.old ≤ S.faults shelf.new }
    ensures reads { IfOk result (Reads (S.held shelf.old) limit file.now) }
    ensures within { IfOk result (λ bytes. length bytes ≤ limit) }
    ensures unread { IfErr result (WhyUnread (S.held shelf.old) (Rose S.stays_at_last (S.faults shelf.old) (S.faults shelf.new)) limit file.now) }
{
    match fetch(alloc, shelf, file, limit) {
        Ok(bytes) => Ok(bytes),
        Err(FetchFault::Absent) => Err(WorkFault::Absent),
        Err(FetchFault::Failed) => Err(WorkFault::Unread),
        Err(FetchFault::Large) => Err(WorkFault::Large),
        Err(FetchFault::NoMemory) => Err(WorkFault::NoMemory),
    }
}
