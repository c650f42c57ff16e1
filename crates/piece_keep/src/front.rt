// The sum of the front of a file, which is read in blocks.
ghost use Rattle.std.specs.Prelude.{◌≡◌, ◌≤◌, ◌<◌, ◌+◌, ℕ, List, length, IfOk, IfErr, OnOk, IfSome};
ghost use Rattle.river_outside.specs.Causes.{Rose};
ghost use Rattle.piece_work.specs.Cutting.{HasFront, WhyNotPassed};
ghost use Rattle.piece_keep.specs.Fed.{FedBlock, FedFront};

use piece_work::WorkFault;
use river_base::NoMemory;
use river_outside::{ReadFault, Shelf};
use sha2::Digest;
use std::alloc::Global;

// How many bytes are read at once: 256 KiB.
pub(crate) const BLOCK: usize = 262_144;

// How many bytes of a file are read at most: 1 TiB.
pub(crate) const MOST: u64 = 1_099_511_627_776;

/// Feeds a hasher with the first bytes of a file, so many as `at` says; `Other` where the file has fewer.
pub fn feed_front<S: Shelf, D: Digest>(
    alloc: Global,
    shelf: &mut S,
    file: &[u8],
    at: u64,
    to: &mut D,
) -> Result<(), WorkFault>
    ensures stays { S.held shelf.new ≡ S.held shelf.old }
    ensures later { S.faults shelf.old ≤ S.faults shelf.new }
    ensures within { OnOk result (at ≤ MOST + BLOCK) }
    ensures fed { OnOk result ((m : List ℕ) → D.holds to.old m → IfSome (S.held shelf.old) (λ h. FedFront (D.holds to.new) m (h file.now) at)) }
    ensures refused { IfErr result (λ fault. WhyNotPassed (S.held shelf.old)
        (Rose S.stays_at_last (S.faults shelf.old) (S.faults shelf.new)) at fault file.now) }
{
    let mut block = new_block(alloc)?;
    feed_blocks(shelf, file, at, block.as_mut_slice(), to)
}

// The memory that a block is read into.
fn new_block(alloc: Global) -> Result<Vec<u8>, NoMemory>
    ensures { IfOk result (λ block. length block.items ≡ BLOCK) }
{
    Ok(Vec::from_elem(alloc, 0, BLOCK)?)
}

// The same, by way of the block.
fn feed_blocks<S: Shelf, D: Digest>(
    shelf: &mut S,
    file: &[u8],
    at: u64,
    block: &mut [u8],
    to: &mut D,
) -> Result<(), WorkFault>
    requires some { 0 < length block.old }
    requires most { length block.old ≤ BLOCK }
    ensures stays { S.held shelf.new ≡ S.held shelf.old }
    ensures later { S.faults shelf.old ≤ S.faults shelf.new }
    ensures within { OnOk result (at ≤ MOST + BLOCK) }
    ensures fed { OnOk result ((m : List ℕ) → D.holds to.old m → IfSome (S.held shelf.old) (λ h. FedFront (D.holds to.new) m (h file.now) at)) }
    ensures refused { IfErr result (λ fault. WhyNotPassed (S.held shelf.old)
        (Rose S.stays_at_last (S.faults shelf.old) (S.faults shelf.new)) at fault file.now) }
{
    let mut from = 0;
    while from < at {
        from += feed_block(shelf, file, from, at, block, to)?;
    }
    Ok(())
}

// Reads the next block, at most up to `at`, and says how many bytes it has: at least one.
fn feed_block<S: Shelf, D: Digest>(
    shelf: &mut S,
    file: &[u8],
    from: u64,
    at: u64,
    block: &mut [u8],
    to: &mut D,
) -> Result<u64, WorkFault>
    requires some { 0 < length block.old }
    requires most { length block.old ≤ BLOCK }
    requires before { from < at }
    requires front { IfSome (S.held shelf.old) (λ h. HasFront (h file.now) from) }
    ensures stays { S.held shelf.new ≡ S.held shelf.old }
    ensures later { S.faults shelf.old ≤ S.faults shelf.new }
    ensures moves { IfOk result (λ count. 0 < count) }
    ensures within { IfOk result (λ count. (from + count ≤ at) × (from + count ≤ MOST + BLOCK)) }
    ensures front { IfOk result (λ count. IfSome (S.held shelf.old) (λ h. HasFront (h file.now) (from + count))) }
    ensures fed { IfOk result (λ count. (m : List ℕ) → D.holds to.old m
        → IfSome (S.held shelf.old) (λ h. FedBlock (D.holds to.new) m (h file.now) from count)) }
    ensures refused { IfErr result (λ fault. WhyNotPassed (S.held shelf.old)
        (Rose S.stays_at_last (S.faults shelf.old) (S.faults shelf.new)) at fault file.now) }
{
    if from > MOST {
        return Err(WorkFault::Large);
    }
    let room = room_for(at - from, block.len());
    match shelf.read(file, from, &mut block[..room]) {
        Ok(0) => Err(WorkFault::Other),
        Ok(count) => {
            to.update(&block[..count]);
            Ok(count as u64)
        }
        Err(ReadFault::Absent) => Err(WorkFault::Absent),
        Err(ReadFault::Failed) => Err(WorkFault::Unread),
    }
}

// The smaller of the two.
fn room_for(left: u64, most: usize) -> usize
    requires left { 0 < left }
    requires most { 0 < most }
    ensures some { 0 < result }
    ensures within { result ≤ left }
    ensures fits { result ≤ most }
{
    if left < most as u64 {
        left as usize
    } else {
        most
    }
}
