// Whether a byte-order mark stands at a place of a file.
ghost use Rattle.std.specs.Prelude.{◌≡◌, ◌≤◌, ◌+◌, ◌&&◌, drop, IfOk, IfErr, IfSome};
ghost use Rattle.csv_cuts.specs.Cut.{is_marked};
ghost use Rattle.river_outside.specs.Causes.{Rose};
ghost use Rattle.piece_work.specs.Faults.{WhyUnread, most_file};
ghost use Rattle.piece_work.specs.Held.{bytes_of};
ghost use Rattle.piece_keep.specs.Fed.{has_byte};

use crate::front::{BLOCK, MOST};
use piece_work::WorkFault;
use river_outside::{ReadFault, Shelf};

/// Whether a byte-order mark stands behind so many bytes of a file.
pub(crate) fn marked_at<S: Shelf>(shelf: &mut S, file: &[u8], at: u64) -> Result<bool, WorkFault>
    requires { at ≤ MOST + BLOCK }
    ensures stays { S.held shelf.new ≡ S.held shelf.old }
    ensures later { S.faults shelf.old ≤ S.faults shelf.new }
    ensures marked { IfOk result (λ marked. IfSome (S.held shelf.old) (λ h. marked ≡ is_marked (drop at (bytes_of (h file.now))))) }
    ensures refused { IfErr result (WhyUnread (S.held shelf.old) (Rose S.stays_at_last (S.faults shelf.old) (S.faults shelf.new)) most_file file.now) }
{
    let first = byte_at(shelf, file, at, 0xEF)?;
    let second = byte_at(shelf, file, at + 1, 0xBB)?;
    let third = byte_at(shelf, file, at + 2, 0xBF)?;
    Ok(are_all(first, second, third))
}

fn are_all(first: bool, second: bool, third: bool) -> bool
    ensures { result ≡ ((first && second) && third) }
{
    first && second && third
}

// Whether this byte stands behind so many.
#[tactic(auto, using(crate::proofs::MarkBytes::marks))]
fn byte_at<S: Shelf>(shelf: &mut S, file: &[u8], at: u64, byte: u8) -> Result<bool, WorkFault>
    ensures stays { S.held shelf.new ≡ S.held shelf.old }
    ensures later { S.faults shelf.old ≤ S.faults shelf.new }
    ensures has { IfOk result (λ has. IfSome (S.held shelf.old) (λ h. has ≡ has_byte (h file.now) at byte)) }
    ensures refused { IfErr result (WhyUnread (S.held shelf.old) (Rose S.stays_at_last (S.faults shelf.old) (S.faults shelf.new)) most_file file.now) }
{
    let mut one = [0u8; 1];
    match shelf.read(file, at, &mut one) {
        Ok(0) => Ok(false),
        Ok(_) => Ok(one[0] == byte),
        Err(ReadFault::Absent) => Err(WorkFault::Absent),
        Err(ReadFault::Failed) => Err(WorkFault::Unread),
    }
}
