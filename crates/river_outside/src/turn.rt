// The turn of a file.
ghost use Rattle.std.specs.Prelude.{◌≡◌, ◌≤◌, length, IfSome, IfOk};
ghost use Rattle.river_outside.specs.Causes.{Rose};
ghost use Rattle.river_outside.specs.Fetched.{FetchesAll};
ghost use Rattle.river_outside.specs.Order.{Fetch};
ghost use Rattle.river_outside.specs.Passes.{Passes};

use crate::{FetchFault, Shelf, Stop, fetch, text};
use river_base::Bytes;
use std::alloc::Global;

/// The bytes of a file whose turn has come. Where it has more than `limit` it is refused with the text `large`.
pub fn fetch_turn<S: Shelf>(
    alloc: Global,
    shelf: &mut S,
    name: &[u8],
    limit: u64,
    large: &[u8],
) -> Result<Bytes, Stop>
    ensures stays { S.held shelf.new ≡ S.held shelf.old }
    ensures later { S.faults shelf.old ≤ S.faults shelf.new }

    ensures bytes { IfOk result (λ got. IfSome (S.held shelf.old) (λ h. FetchesAll (h name.now) limit got)) }
    ensures within { IfOk result (λ got. length got ≤ limit) }

    // Where there are no bytes this point decides, whatever the later ones are.
    ensures passes { Passes (Fetch name.now limit large.now) (S.held shelf.old) (Rose S.stays_at_last (S.faults shelf.old) (S.faults shelf.new)) result }
{
    match fetch(alloc, shelf, name, limit) {
        Ok(bytes) => Ok(bytes),
        Err(FetchFault::Large) => Err(Stop::Refused(Bytes::from_slice(alloc, large)?)),
        Err(FetchFault::Failed) => Err(Stop::Failed(text::failed(alloc, name)?)),
        Err(FetchFault::Absent) => Err(Stop::Absent(text::absent(alloc, name)?)),
        Err(FetchFault::NoMemory) => Err(Stop::NoMemory),
    }
}
