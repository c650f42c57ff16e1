// What an earlier call kept of a file.
ghost use Rattle.std.specs.Prelude.{◌≡◌, ◌≤◌, ◌+◌, ◌↔◌, ℕ, List, true, IfOk, IfErr, IfSome};
ghost use Rattle.std.specs.Bool.{OnTrue, OnFalse};
ghost use Rattle.sha2.specs.Hashers.{Holds256};
ghost use Rattle.river_outside.specs.Causes.{Rose};
ghost use Rattle.piece_files.specs.Held.{IfHeld};
ghost use Rattle.piece_work.specs.Cutting.{IsShorter};
ghost use Rattle.piece_work.specs.Faults.{WhyUnread, most_file};
ghost use Rattle.piece_keep.specs.Fed.{FedFront};
ghost use Rattle.piece_keep.specs.Found.{IsFoundIn, IsMarked};
ghost use Rattle.piece_keep.specs.Mark.{count_in, mark_text, place_in};
ghost use Rattle.piece_keep.specs.Unseen.{IsSeen, WhyNotFound, WhyUnseen};

use crate::Extent;
use crate::front::{BLOCK, MOST, feed_front};
use crate::mark::{mark_front, whole_mark};
use crate::marked::marked_at;
use crate::place::{count_in, place_in};
use piece_files::{JobFile, JobFiles};
use piece_work::WorkFault;
use river_base::{Bytes, NoMemory};
use river_outside::{FetchFault, Shelf};
use sha2::{Digest, Sha256};
use std::alloc::Global;

/// The front of a file.
#[derive(Drop)]
pub struct Front {
    /// How far it goes.
    pub extent: Extent,
    /// A hasher that was fed with them.
    pub hasher: Sha256,
}

/// What an earlier call kept of a file.
#[derive(Drop)]
pub struct Kept {
    /// The part of the file that it had read.
    pub front: Front,
    /// What it printed of it.
    pub tables: Bytes,
}

/// What is found in a folder of what is kept.
#[derive(Drop)]
pub enum Found {
    /// It keeps nothing: no earlier call was made.
    Nothing,
    /// What it keeps is not of this file, header and program, or has changed.
    Changed,
    /// It keeps this.
    This(Kept),
}

/// What the folder keeps of this file, with this header and program: the mark in it is that of its tables, of the program's text
/// and of the first bytes of the file, behind which stands no byte-order mark.
pub fn find_kept<S: Shelf, K: JobFiles>(
    alloc: Global,
    shelf: &mut S,
    keep: &mut K,
    file: &[u8],
    header: bool,
    program: &[u8],
) -> Result<Found, WorkFault>
    ensures stays { S.held shelf.new ≡ S.held shelf.old }
    ensures later { S.faults shelf.old ≤ S.faults shelf.new }
    ensures keep_stays { K.held keep.new ≡ K.held keep.old }
    ensures keep_later { K.faults keep.old ≤ K.faults keep.new }
    ensures found { IfOk result (λ found. IfSome (S.held shelf.old) (λ h. IfHeld (K.held keep.old) (λ k. IsFoundIn (h file.now) header program.now k found))) }
    ensures refused { IfErr result (WhyNotFound (S.held shelf.old) (Rose S.stays_at_last (S.faults shelf.old) (S.faults shelf.new))
        (Rose K.stays_at_last (K.faults keep.old) (K.faults keep.new)) file.now) }
{
    let Some(mark) = seen(alloc, keep, JobFile::State)? else {
        return Ok(Found::Nothing);
    };
    let Some(tables) = seen(alloc, keep, JobFile::Kept)? else {
        return Ok(Found::Nothing);
    };
    match read_mark(
        alloc,
        shelf,
        file,
        header,
        program,
        mark.as_slice(),
        tables.as_slice(),
    )? {
        Some(front) => Ok(Found::This(Kept { front, tables })),
        None => Ok(Found::Changed),
    }
}

// The bytes of a file of the folder; none where it is not there, or is larger than is read.
fn seen<K: JobFiles>(alloc: Global, keep: &mut K, file: JobFile) -> Result<Option<Bytes>, WorkFault>
    ensures stays { K.held keep.new ≡ K.held keep.old }
    ensures later { K.faults keep.old ≤ K.faults keep.new }
    ensures seen { IfOk result (λ found. IfHeld (K.held keep.old) (λ k. IsSeen (k file) found)) }
    ensures refused { IfErr result (WhyUnseen (Rose K.stays_at_last (K.faults keep.old) (K.faults keep.new))) }
{
    match keep.fetch(alloc, file, MOST) {
        Ok(bytes) => Ok(Some(bytes)),
        Err(FetchFault::Absent | FetchFault::Large) => Ok(None),
        Err(FetchFault::Failed) => Err(WorkFault::Unread),
        Err(FetchFault::NoMemory) => Err(WorkFault::NoMemory),
    }
}

// The front of the file that the mark is of.
fn read_mark<S: Shelf>(
    alloc: Global,
    shelf: &mut S,
    file: &[u8],
    header: bool,
    program: &[u8],
    mark: &[u8],
    tables: &[u8],
) -> Result<Option<Front>, WorkFault>
    ensures stays { S.held shelf.new ≡ S.held shelf.old }
    ensures later { S.faults shelf.old ≤ S.faults shelf.new }
    ensures marked { IfOk result (λ found. IfSome (S.held shelf.old) (λ h. IsMarked mark.now (h file.now) header program.now tables.now found)) }
    ensures refused { IfErr result (WhyUnread (S.held shelf.old) (Rose S.stays_at_last (S.faults shelf.old) (S.faults shelf.new)) most_file file.now) }
{
    let extent = extent_in(mark);
    let mut hasher = Sha256::new();
    if !feeds(alloc, shelf, file, extent.at, &mut hasher)? {
        return Ok(None);
    }
    if marked_at(shelf, file, extent.at)? {
        return Ok(None);
    }
    if is_mark(alloc, extent, header, &hasher, program, tables, mark)? {
        Ok(Some(Front { extent, hasher }))
    } else {
        Ok(None)
    }
}

// How far a file was read that has this mark.
fn extent_in(mark: &[u8]) -> Extent
    ensures at { result.at ≡ place_in mark.now }
    ensures records { result.records ≡ count_in mark.now }
{
    Extent {
        at: place_in(mark),
        records: count_in(mark),
    }
}

// Feeds a hasher with the first bytes of a file; false where it has fewer.
fn feeds<S: Shelf>(
    alloc: Global,
    shelf: &mut S,
    file: &[u8],
    at: u64,
    to: &mut Sha256,
) -> Result<bool, WorkFault>
    ensures stays { S.held shelf.new ≡ S.held shelf.old }
    ensures later { S.faults shelf.old ≤ S.faults shelf.new }
    ensures fed { IfOk result (λ all. OnTrue all ((m : List ℕ) → Holds256 to.old m
        → IfSome (S.held shelf.old) (λ h. FedFront (Holds256 to.new) m (h file.now) at))) }
    ensures within { IfOk result (λ all. OnTrue all (at ≤ MOST + BLOCK)) }
    ensures shorter { IfOk result (λ all. OnFalse all (IfSome (S.held shelf.old) (λ h. IsShorter (h file.now) at))) }
    ensures refused { IfErr result (WhyUnread (S.held shelf.old) (Rose S.stays_at_last (S.faults shelf.old) (S.faults shelf.new)) most_file file.now) }
{
    match feed_front(alloc, shelf, file, at, to) {
        Ok(()) => Ok(true),
        Err(WorkFault::Other) => Ok(false),
        Err(fault) => Err(fault),
    }
}

// Whether a mark is that of what a hasher was fed with.
fn is_mark(
    alloc: Global,
    extent: Extent,
    header: bool,
    front: &Sha256,
    program: &[u8],
    tables: &[u8],
    mark: &[u8],
) -> Result<bool, NoMemory>
    ensures { IfOk result (λ same. (bytes : List ℕ) → Holds256 front.now bytes → same ≡ true ↔ (mark.now ≡ mark_text extent.at extent.records header bytes program.now tables.now)) }
{
    let begun = mark_front(alloc, extent, header, front.clone()?, program)?;
    let whole = whole_mark(alloc, begun.as_slice(), tables)?;
    Ok(mark == whole.as_slice())
}
