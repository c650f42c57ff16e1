// A file is read in blocks, and cut into pieces that overlap as it comes.
ghost use Rattle.std.specs.Prelude.{◌≡◌, ◌≤◌, ◌<◌, ◌+◌, true, [], length, IfOk, IfErr, OnOk, IfSome};
ghost use Rattle.river_outside.specs.Causes.{Rose};
ghost use Rattle.piece_work.specs.Cutting.{IsWindow};
ghost use Rattle.lap_cuts.specs.Laps.{LapsFrom, LapsHeld, PassedHeader, WhyNotLapped};

use crate::Laps;
use crate::laps::{header_end, laps_of_front, laps_of_rest};
use csv_cuts::{PieceSink, Size};
use piece_work::{WorkFault, fill, let_go, new_block};
use river_outside::Shelf;
use std::alloc::Global;

// How many bytes a piece has at most: 64 MiB, what a run takes.
const SIZE: Size = Size {
    records: 0,
    bytes: 67_108_864,
};

/// Cuts a file, behind its header if there is one, into pieces that overlap, which are taken one behind another: each has as many
/// records as `laps` says and begins so many behind the one before; the last has what is left. The file is read once, in order, and
/// no more of it is kept than a piece may have, 64 MiB, and one block.
///
/// # Errors
///
/// `Absent` and `Unread` of the file; `Large` where it has more than 1 TiB, or where a piece would have to end or begin at a place before
/// which a file may not be cut, or would have more than 64 MiB; `Unwritten` where what takes the pieces failed.
pub fn cut_laps<S: Shelf, P: PieceSink>(
    alloc: Global,
    shelf: &mut S,
    file: &[u8],
    skip_first: bool,
    laps: Laps,
    to: &mut P,
) -> Result<(), WorkFault>
    ensures stays { S.held shelf.new ≡ S.held shelf.old }
    ensures later { S.faults shelf.old ≤ S.faults shelf.new }
    ensures to_later { P.faults to.old ≤ P.faults to.new }
    ensures cut { OnOk result (IfSome (S.held shelf.old) (λ h. LapsHeld (h file.now) skip_first laps.records laps.step (P.taken to.old) (P.taken to.new))) }
    ensures refused { IfErr result (WhyNotLapped (S.held shelf.old)
        (Rose S.stays_at_last (S.faults shelf.old) (S.faults shelf.new)) (Rose P.stays_at_last (P.faults to.old) (P.faults to.new)) file.now) }
{
    let mut block = new_block(alloc)?;
    let mut window = Vec::new(alloc);
    let block = block.as_mut_slice();
    let start = pass_header(shelf, file, skip_first, block, &mut window)?;
    laps_from(shelf, file, start, laps, block, &mut window, to)
}

// Lets the header of a file go, if there is one, of which the front is read then; says how many bytes it had.
#[tactic(auto, using(crate::proofs::Held::begins))]
fn pass_header<S: Shelf>(
    shelf: &mut S,
    file: &[u8],
    skip_first: bool,
    block: &mut [u8],
    window: &mut Vec<u8>,
) -> Result<u64, WorkFault>
    requires some { 0 < length block.old }
    requires most { length block.old ≤ 262144 }
    requires none { window.old.items ≡ [] }
    ensures stays { S.held shelf.new ≡ S.held shelf.old }
    ensures later { S.faults shelf.old ≤ S.faults shelf.new }
    ensures within { IfOk result (λ start. start + length window.new.items ≤ 1099511889920) }
    ensures so { IfOk result (λ start. IfSome (S.held shelf.old) (λ h. IsWindow (h file.now) start window.new.items)) }
    ensures passed { IfOk result (λ start. IfSome (S.held shelf.old) (λ h. PassedHeader (h file.now) skip_first start)) }
    ensures refused { IfErr result (WhyNotLapped (S.held shelf.old) (Rose S.stays_at_last (S.faults shelf.old) (S.faults shelf.new)) ⊥ file.now) }
{
    if skip_first {
        pass_first(shelf, file, block, window)
    } else {
        Ok(0)
    }
}

// Reads the front of a file, and lets its header go.
#[tactic(auto, using(crate::proofs::Held::begins))]
fn pass_first<S: Shelf>(
    shelf: &mut S,
    file: &[u8],
    block: &mut [u8],
    window: &mut Vec<u8>,
) -> Result<u64, WorkFault>
    requires some { 0 < length block.old }
    requires most { length block.old ≤ 262144 }
    requires none { window.old.items ≡ [] }
    ensures stays { S.held shelf.new ≡ S.held shelf.old }
    ensures later { S.faults shelf.old ≤ S.faults shelf.new }
    ensures within { IfOk result (λ start. start + length window.new.items ≤ 1099511889920) }
    ensures so { IfOk result (λ start. IfSome (S.held shelf.old) (λ h. IsWindow (h file.now) start window.new.items)) }
    ensures passed { IfOk result (λ start. IfSome (S.held shelf.old) (λ h. PassedHeader (h file.now) true start)) }
    ensures refused { IfErr result (WhyNotLapped (S.held shelf.old) (Rose S.stays_at_last (S.faults shelf.old) (S.faults shelf.new)) ⊥ file.now) }
{
    let full = fill(shelf, file, 0, SIZE, block, window)?;
    let Some(count) = header_end(window.as_slice(), full) else {
        return Err(WorkFault::Large);
    };
    let_go(window, count);
    Ok(count as u64)
}

// Cuts a file from a place on.
#[tactic(auto, using(crate::proofs::Held::begins))]
fn laps_from<S: Shelf, P: PieceSink>(
    shelf: &mut S,
    file: &[u8],
    from: u64,
    laps: Laps,
    block: &mut [u8],
    window: &mut Vec<u8>,
    to: &mut P,
) -> Result<(), WorkFault>
    requires some { 0 < length block.old }
    requires most { length block.old ≤ 262144 }
    requires within { from + length window.old.items ≤ 1099511889920 }
    requires so { IfSome (S.held shelf.old) (λ h. IsWindow (h file.now) from window.old.items) }
    ensures stays { S.held shelf.new ≡ S.held shelf.old }
    ensures later { S.faults shelf.old ≤ S.faults shelf.new }
    ensures to_later { P.faults to.old ≤ P.faults to.new }
    ensures cut { OnOk result (IfSome (S.held shelf.old) (λ h. LapsFrom (h file.now) from laps.records laps.step (P.taken to.old) (P.taken to.new))) }
    ensures refused { IfErr result (WhyNotLapped (S.held shelf.old)
        (Rose S.stays_at_last (S.faults shelf.old) (S.faults shelf.new)) (Rose P.stays_at_last (P.faults to.old) (P.faults to.new)) file.now) }
{
    let mut start = from;
    while fill(shelf, file, start, SIZE, block, window)? {
        let count = laps_of_front(window.as_slice(), laps, to)?;
        if count == 0 {
            return Err(WorkFault::Large);
        }
        let_go(window, count);
        start += count as u64;
    }
    if laps_of_rest(window.as_slice(), laps, to)? {
        Ok(())
    } else {
        Err(WorkFault::Large)
    }
}
