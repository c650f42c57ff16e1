// Fetches the whole of a name.
ghost use Rattle.std.specs.Prelude.{◌≡◌, ◌<◌, ◌≤◌, ◌+◌, length, None, IfSome, IfOk, OnOk, MatchOption, IsErrOf};
ghost use Rattle.std.specs.Bool.{OnTrue, OnFalse};
ghost use Rattle.river_outside.specs.Held.{IsStartOfHeld, EndsBy};
ghost use Rattle.river_outside.specs.Causes.{Rose};
ghost use Rattle.river_outside.specs.Fetched.{FetchesAll, IsLarger, FetchesExactly};

use crate::{ReadFault, Shelf};
use river_base::{Bytes, NoMemory};
use std::alloc::Global;

/// Why a fetch gave nothing.
#[derive(Clone, Copy)]
pub enum FetchFault {
    /// The shelf failed.
    Failed,
    /// There are more bytes than the limit.
    Large,
    /// There is no such name.
    Absent,
    /// There was no memory for the bytes.
    NoMemory,
}

const PIECE: usize = 4096;

/// All bytes of a name, if they are at most `limit`. At most one byte more is read.
pub fn fetch<S: Shelf>(
    alloc: Global,
    shelf: &mut S,
    name: &[u8],
    limit: u64,
) -> Result<Bytes, FetchFault>
    ensures stays { S.held shelf.new ≡ S.held shelf.old }
    ensures later { S.faults shelf.old ≤ S.faults shelf.new }

    ensures bytes { IfOk result (λ got. IfSome (S.held shelf.old) (λ h. FetchesAll (h name.now) limit got)) }
    ensures within { IfOk result (λ got. length got ≤ limit) }
    ensures failed { IsErrOf result FetchFault.Failed → Rose S.stays_at_last (S.faults shelf.old) (S.faults shelf.new) }
    ensures large { IsErrOf result FetchFault.Large → IfSome (S.held shelf.old) (λ h. IsLarger (h name.now) limit) }
    ensures absent { IsErrOf result FetchFault.Absent
        → MatchOption (S.held shelf.old) (Rose S.stays_at_last (S.faults shelf.old) (S.faults shelf.new)) (λ h. h name.now ≡ None) }

    // Where the count did not rise, the held bytes and the limit decide.
    ensures exactly { IfSome (S.held shelf.old) (λ h. (Rose S.stays_at_last (S.faults shelf.old) (S.faults shelf.new) → ⊥)
        → FetchesExactly (h name.now) limit result) }
{
    let mut got = Bytes::new(alloc);
    while got.len() as u64 <= limit {
        if !take_piece(shelf, name, limit, &mut got)? {
            return Ok(got);
        }
    }
    Err(FetchFault::Large)
}

// Takes the next piece of a name, at most up to one byte past the limit, and says whether there was one.
fn take_piece<S: Shelf>(
    shelf: &mut S,
    name: &[u8],
    limit: u64,
    got: &mut Bytes,
) -> Result<bool, FetchFault>
    requires { length got.old ≤ limit }

    ensures stays { S.held shelf.new ≡ S.held shelf.old }
    ensures later { S.faults shelf.old ≤ S.faults shelf.new }

    ensures more { IfOk result (λ more. OnTrue more (length got.old < length got.new)) }
    ensures end { IfOk result (λ more. OnFalse more ((got.new ≡ got.old)
        × IfSome (S.held shelf.old) (λ h. EndsBy (h name.now) (length got.old)))) }
    ensures most { OnOk result (length got.new ≤ limit + 1) }
    ensures start { OnOk result (IfSome (S.held shelf.old) (λ h. IsStartOfHeld (h name.now) got.old → IsStartOfHeld (h name.now) got.new)) }

    ensures failed { IsErrOf result FetchFault.Failed → Rose S.stays_at_last (S.faults shelf.old) (S.faults shelf.new) }
    ensures not_large { IsErrOf result FetchFault.Large → ⊥ }
    ensures absent { IsErrOf result FetchFault.Absent
        → MatchOption (S.held shelf.old) (Rose S.stays_at_last (S.faults shelf.old) (S.faults shelf.new)) (λ h. h name.now ≡ None) }
{
    let mut piece = [0u8; PIECE];
    let room = room_for(limit - got.len() as u64);
    match shelf.read(name, got.len() as u64, &mut piece[..room]) {
        Ok(0) => Ok(false),
        Ok(count) => match got.extend(&piece[..count]) {
            Ok(()) => Ok(true),
            Err(NoMemory) => Err(FetchFault::NoMemory),
        },
        Err(ReadFault::Absent) => Err(FetchFault::Absent),
        Err(ReadFault::Failed) => Err(FetchFault::Failed),
    }
}

// How many bytes to ask for where one more than `left` may come.
fn room_for(left: u64) -> usize
    ensures some { 1 ≤ result }
    ensures most { result ≤ left + 1 }
    ensures fits { result ≤ PIECE }
{
    if left < PIECE as u64 {
        left as usize + 1
    } else {
        PIECE
    }
}
