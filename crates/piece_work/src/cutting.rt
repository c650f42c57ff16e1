// Cuts a file.
ghost use Rattle.std.specs.Prelude.{◌≡◌, ◌≤◌, length, IfOk, IfErr, OnOk, IfSome};
ghost use Rattle.csv_streams.specs.Records.{csv_records};
ghost use Rattle.csv_cuts.specs.Window.{TookWithin};
ghost use Rattle.river_outside.specs.Causes.{Rose};
ghost use Rattle.piece_work.specs.Cutting.{CutHeld, WhyNotCut};
ghost use Rattle.piece_work.specs.Faults.{IsRead, WhyUnread, most_file};
ghost use Rattle.piece_work.specs.Held.{bytes_of};

use crate::WorkFault;
use crate::reading::{MOST, read_file};
use crate::windows::{BLOCK, cut_windows, pass_over};
use csv_cuts::{PieceSink, Size, records_in};
use river_base::NoMemory;
use river_outside::Shelf;
use std::alloc::Global;

/// Cuts what a file has behind its first bytes, so many as `from` says, into pieces, which are taken
/// one behind another. The first has the header, if there is one. The file is read once, in order,
/// and no more of it is kept than a piece may have and one block. A piece has at most so many bytes
/// as `size` says, and so many records, unless no piece can be cut off it: where one would have more
/// bytes the answer is `Large`, and where the file has fewer bytes than `from` it is `Other`.
pub fn cut_shelf<S: Shelf, P: PieceSink>(
    alloc: Global,
    shelf: &mut S,
    file: &[u8],
    from: u64,
    skip_first: bool,
    size: Size,
    to: &mut P,
) -> Result<(), WorkFault>
    ensures stays { S.held shelf.new ≡ S.held shelf.old }
    ensures later { S.faults shelf.old ≤ S.faults shelf.new }
    ensures to_later { P.faults to.old ≤ P.faults to.new }
    ensures cut { OnOk result (IfSome (S.held shelf.old) (λ h. CutHeld (h file.now) from skip_first (P.taken to.old) (P.taken to.new))) }
    ensures within { OnOk result (TookWithin size.records size.bytes (P.taken to.old) (P.taken to.new)) }
    ensures refused { IfErr result (λ fault. WhyNotCut (S.held shelf.old)
        (Rose S.stays_at_last (S.faults shelf.old) (S.faults shelf.new)) (Rose P.stays_at_last (P.faults to.old) (P.faults to.new)) from size.bytes fault file.now) }
{
    let mut block = new_block(alloc)?;
    pass_over(shelf, file, from, block.as_mut_slice())?;
    let mut window = Vec::new(alloc);
    cut_windows(
        shelf,
        file,
        from,
        skip_first,
        size,
        block.as_mut_slice(),
        &mut window,
        to,
    )
}

/// The memory that a block is read into: 256 KiB.
pub fn new_block(alloc: Global) -> Result<Vec<u8>, NoMemory>
    ensures { IfOk result (λ block. length block.items ≡ BLOCK) }
{
    Ok(Vec::from_elem(alloc, 0, BLOCK)?)
}

/// How many records a file has.
#[tactic(auto, using(crate::proofs::Fetches::fetches))]
pub fn count_records<S: Shelf>(
    alloc: Global,
    shelf: &mut S,
    file: &[u8],
) -> Result<usize, WorkFault>
    ensures count { IfOk result (λ count. IfSome (S.held shelf.old) (λ h. count ≡ length (csv_records (bytes_of (h file.now))))) }
    ensures read { OnOk result (IsRead (S.held shelf.old) file.now) }
    ensures refused { IfErr result (WhyUnread (S.held shelf.old) (Rose S.stays_at_last (S.faults shelf.old) (S.faults shelf.new)) most_file file.now) }
{
    let bytes = read_file(alloc, shelf, file, MOST)?;
    Ok(records_in(bytes.as_slice()))
}
