// A file is read in blocks, and cut as it comes.
ghost use Rattle.std.specs.Prelude.{◌≡◌, ◌≤◌, ◌<◌, ◌+◌, ◌↔◌, [], length, drop, IsTrue, IfOk, IfErr, OnOk, IfSome};
ghost use Rattle.std.specs.Bool.{OnTrue, OnFalse};
ghost use Rattle.csv_cuts.specs.Window.{TookWithin};
ghost use Rattle.river_outside.specs.Causes.{Rose};
ghost use Rattle.river_outside.specs.Held.{EndsBy};
ghost use Rattle.piece_work.specs.Cutting.{CutHeld, HasFront, IsWindow, WhyNotCut, WhyNotPassed};
ghost use Rattle.piece_work.specs.Faults.{WhyUnread, most_file};

use crate::WorkFault;
use crate::reading::MOST;
use csv_cuts::{PieceSink, Size, cut_front, cut_rest};
use river_outside::{ReadFault, Shelf};

/// How many bytes are read at once: 256 KiB.
pub const BLOCK: usize = 262_144;

/// Passes over so many bytes at the front of a file: they are read and let go.
pub(crate) fn pass_over<S: Shelf>(
    shelf: &mut S,
    file: &[u8],
    from: u64,
    block: &mut [u8],
) -> Result<(), WorkFault>
    requires some { 0 < length block.old }
    requires most { length block.old ≤ BLOCK }
    ensures stays { S.held shelf.new ≡ S.held shelf.old }
    ensures later { S.faults shelf.old ≤ S.faults shelf.new }
    ensures within { OnOk result (from ≤ MOST + BLOCK) }
    ensures front { OnOk result (IfSome (S.held shelf.old) (λ h. HasFront (h file.now) from)) }
    ensures refused { IfErr result (λ fault. WhyNotPassed (S.held shelf.old)
        (Rose S.stays_at_last (S.faults shelf.old) (S.faults shelf.new)) from fault file.now) }
{
    let mut at = 0;
    while at < from {
        at += pass_block(shelf, file, at, from, block)?;
    }
    Ok(())
}

// Reads the next block, at most up to `from`, and says how many bytes it has: at least one.
fn pass_block<S: Shelf>(
    shelf: &mut S,
    file: &[u8],
    at: u64,
    from: u64,
    block: &mut [u8],
) -> Result<u64, WorkFault>
    requires some { 0 < length block.old }
    requires most { length block.old ≤ BLOCK }
    requires before { at < from }
    requires front { IfSome (S.held shelf.old) (λ h. HasFront (h file.now) at) }
    ensures stays { S.held shelf.new ≡ S.held shelf.old }
    ensures later { S.faults shelf.old ≤ S.faults shelf.new }
    ensures moves { IfOk result (λ count. 0 < count) }
    ensures within { IfOk result (λ count. (at + count ≤ from) × (at + count ≤ MOST + BLOCK)) }
    ensures front { IfOk result (λ count. IfSome (S.held shelf.old) (λ h. HasFront (h file.now) (at + count))) }
    ensures refused { IfErr result (λ fault. WhyNotPassed (S.held shelf.old)
        (Rose S.stays_at_last (S.faults shelf.old) (S.faults shelf.new)) from fault file.now) }
{
    if at > MOST {
        return Err(WorkFault::Large);
    }
    let room = room_for(from - at, block.len());
    match shelf.read(file, at, &mut block[..room]) {
        Ok(0) => Err(WorkFault::Other),
        Ok(count) => Ok(count as u64),
        Err(ReadFault::Absent) => Err(WorkFault::Absent),
        Err(ReadFault::Failed) => Err(WorkFault::Unread),
    }
}

// The smaller of the two.
fn room_for(left: u64, most: usize) -> usize
    requires left { 0 < left }
    requires most { 0 < most }
    ensures some { 0 < result }
    ensures within { result ≤ left }
    ensures fits { result ≤ most }
{
    if left < most as u64 {
        left as usize
    } else {
        most
    }
}

/// Cuts a file from a place on.
pub(crate) fn cut_windows<S: Shelf, P: PieceSink>(
    shelf: &mut S,
    file: &[u8],
    from: u64,
    skip_first: bool,
    size: Size,
    block: &mut [u8],
    window: &mut Vec<u8>,
    to: &mut P,
) -> Result<(), WorkFault>
    requires some { 0 < length block.old }
    requires most { length block.old ≤ BLOCK }
    requires within { from ≤ MOST + BLOCK }
    requires none { window.old.items ≡ [] }
    requires front { IfSome (S.held shelf.old) (λ h. HasFront (h file.now) from) }
    ensures stays { S.held shelf.new ≡ S.held shelf.old }
    ensures later { S.faults shelf.old ≤ S.faults shelf.new }
    ensures to_later { P.faults to.old ≤ P.faults to.new }
    ensures cut { OnOk result (IfSome (S.held shelf.old) (λ h. CutHeld (h file.now) from skip_first (P.taken to.old) (P.taken to.new))) }
    ensures within { OnOk result (TookWithin size.records size.bytes (P.taken to.old) (P.taken to.new)) }
    ensures refused { IfErr result (λ fault. WhyNotCut (S.held shelf.old)
        (Rose S.stays_at_last (S.faults shelf.old) (S.faults shelf.new)) (Rose P.stays_at_last (P.faults to.old) (P.faults to.new)) from size.bytes fault file.now) }
{
    let mut start = from;
    while fill(shelf, file, start, size, block, window)? {
        let count = cut_front(window.as_slice(), size, to)?;
        if count == 0 {
            return Err(WorkFault::Large);
        }
        let_go(window, count);
        start += count as u64;
    }
    if cut_rest(window.as_slice(), size, to)? {
        Ok(())
    } else {
        Err(WorkFault::Large)
    }
}

/// Reads on until a piece fits into the window, with what shows where it may end, and says whether
/// it does: where it does not, the file ends. The window has the bytes of the file from `start` on.
///
/// # Errors
///
/// `Absent`, `Unread` and `NoMemory`; `Large` where more than 1 TiB of the file would be read.
pub fn fill<S: Shelf>(
    shelf: &mut S,
    file: &[u8],
    start: u64,
    size: Size,
    block: &mut [u8],
    window: &mut Vec<u8>,
) -> Result<bool, WorkFault>
    requires some { 0 < length block.old }
    requires most { length block.old ≤ BLOCK }
    requires within { start + length window.old.items ≤ MOST + BLOCK }
    requires so { IfSome (S.held shelf.old) (λ h. IsWindow (h file.now) start window.old.items) }
    ensures stays { S.held shelf.new ≡ S.held shelf.old }
    ensures later { S.faults shelf.old ≤ S.faults shelf.new }
    ensures within { OnOk result (start + length window.new.items ≤ MOST + BLOCK) }
    ensures so { OnOk result (IfSome (S.held shelf.old) (λ h. IsWindow (h file.now) start window.new.items)) }
    ensures full { IfOk result (λ full. OnTrue full (size.bytes + 3 ≤ length window.new.items)) }
    ensures end { IfOk result (λ full. OnFalse full (IfSome (S.held shelf.old) (λ h. EndsBy (h file.now) (start + length window.new.items)))) }
    ensures unread { IfErr result (WhyUnread (S.held shelf.old) (Rose S.stays_at_last (S.faults shelf.old) (S.faults shelf.new)) most_file file.now) }
{
    while !is_full(window.len(), size.bytes) {
        if !next_block(shelf, file, start, block, window)? {
            return Ok(false);
        }
    }
    Ok(true)
}

// Whether a window of so many bytes has three behind so many.
fn is_full(len: usize, bytes: usize) -> bool
    ensures { IsTrue result ↔ (bytes + 3 ≤ len) }
{
    len >= 3 && len - 3 >= bytes
}

// Appends the next block of the file to the window, and says whether there was one.
fn next_block<S: Shelf>(
    shelf: &mut S,
    file: &[u8],
    start: u64,
    block: &mut [u8],
    window: &mut Vec<u8>,
) -> Result<bool, WorkFault>
    requires some { 0 < length block.old }
    requires most { length block.old ≤ BLOCK }
    requires within { start + length window.old.items ≤ MOST + BLOCK }
    requires so { IfSome (S.held shelf.old) (λ h. IsWindow (h file.now) start window.old.items) }
    ensures stays { S.held shelf.new ≡ S.held shelf.old }
    ensures later { S.faults shelf.old ≤ S.faults shelf.new }
    ensures within { OnOk result (start + length window.new.items ≤ MOST + BLOCK) }
    ensures so { OnOk result (IfSome (S.held shelf.old) (λ h. IsWindow (h file.now) start window.new.items)) }
    ensures more { IfOk result (λ more. OnTrue more (length window.old.items < length window.new.items)) }
    ensures end { IfOk result (λ more. OnFalse more (IfSome (S.held shelf.old) (λ h. EndsBy (h file.now) (start + length window.new.items)))) }
    ensures unread { IfErr result (WhyUnread (S.held shelf.old) (Rose S.stays_at_last (S.faults shelf.old) (S.faults shelf.new)) most_file file.now) }
{
    let at = start + window.len() as u64;
    if at > MOST {
        return Err(WorkFault::Large);
    }
    match shelf.read(file, at, block) {
        Ok(0) => Ok(false),
        Ok(count) => match window.extend_from_slice(&block[..count]) {
            Ok(()) => Ok(true),
            Err(_) => Err(WorkFault::NoMemory),
        },
        Err(ReadFault::Absent) => Err(WorkFault::Absent),
        Err(ReadFault::Failed) => Err(WorkFault::Unread),
    }
}

/// Lets so many bytes at the front of a window go.
pub fn let_go(window: &mut Vec<u8>, count: usize)
    requires { count ≤ length window.old.items }
    ensures { window.new.items ≡ drop count window.old.items }
{
    let left = window.len() - count;
    window.copy_within(count.., 0);
    window.truncate(left);
}
