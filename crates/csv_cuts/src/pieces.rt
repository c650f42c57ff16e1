// The loops that cut a file.
ghost use Rattle.std.specs.Prelude.{◌≡◌, ◌≤◌, ◌<◌, ◌+◌, ◌-◌, min, [], ◌∷◌, take, drop, length, ℕ, Bool, List, Option, IfOk, OnOk, OnErr};
ghost use Rattle.std.specs.Bool.{OnTrue, OnFalse};
ghost use Rattle.csv_cuts.specs.Cut.{TookPieces, append_pieces};
ghost use Rattle.csv_cuts.specs.Window.{CutsOff, NoneUpTo, TookFrom, IsUncut, IsWithin, TookWithin};
ghost use Rattle.river_outside.specs.Causes.{Rose};

use crate::window::piece_end;
use river_outside::Failed;

/// What takes pieces, one behind another. Those that it took may be told to contracts; a count of faults, which never falls, tells
/// them when it took one not.
pub trait PieceSink {
    /// The pieces taken, where they are told.
    ghost taken: { Self → Option (List (List ℕ)) };

    /// How often it has failed.
    ghost faults: { Self → ℕ };

    /// Whether that count stays at 2^64 - 1 once it is there.
    ghost stays_at_last: { Bool };

    /// Takes a piece.
    fn take(&mut self, piece: &[u8]) -> Result<(), Failed>
        ensures later { faults self.old ≤ faults self.new }
        ensures took { OnOk result (taken self.new ≡ append_pieces (taken self.old) (piece.now ∷ [])) }
        ensures failed { OnErr result (Rose stays_at_last (faults self.old) (faults self.new)) };
}

/// How large a piece is to be, where the file can be cut so.
#[derive(Clone, Copy)]
pub struct Size {
    /// At most so many records.
    pub records: usize,
    /// At most so many bytes.
    pub bytes: usize,
}

/// Cuts pieces off the front of a window of a file of which more may come, and takes them one behind another. Says how many bytes
/// they have: none only where no piece can be cut off.
#[tactic(auto, using(crate::proofs::Sizes::sizes))]
pub fn cut_front<P: PieceSink>(window: &[u8], size: Size, to: &mut P) -> Result<usize, Failed>
    ensures later { P.faults to.old ≤ P.faults to.new }
    ensures cut { IfOk result (λ count. TookFrom window.now count (P.taken to.old) (P.taken to.new)) }
    ensures within { OnOk result (TookWithin size.records size.bytes (P.taken to.old) (P.taken to.new)) }
    ensures none { IfOk result (λ count. count ≡ 0 → NoneUpTo window.now (min size.bytes (length window.now - 3))) }
    ensures failed { OnErr result (Rose P.stays_at_last (P.faults to.old) (P.faults to.new)) }
{
    let mut from = 0;
    let mut end = front_end(window, from, size);
    while from < end {
        to.take(&window[from..end])?;
        from = end;
        end = front_end(window, from, size);
    }
    Ok(from)
}

// Where the piece that begins at `from` ends; at `from` where there is none. A later piece is cut off only where what follows the
// window cannot make it longer.
#[tactic(auto, using(crate::proofs::Sizes::ends))]
fn front_end(window: &[u8], from: usize, size: Size) -> usize
    requires { from ≤ length window.now }
    ensures after { from ≤ result }
    ensures within { from < result → result + 3 ≤ length window.now }
    ensures cuts { from < result → CutsOff (drop from window.now) (result - from) }
    ensures size { from < result → IsWithin size.records size.bytes (take (result - from) (drop from window.now)) }
    ensures none { from ≡ 0 → result ≡ 0 → NoneUpTo window.now (min size.bytes (length window.now - 3)) }
{
    let rest = &window[from..];
    let most = size.bytes.min(rest.len().saturating_sub(3));
    let end = piece_end(rest, size.records, most);
    if from == 0 || end.full {
        from + end.place
    } else {
        from
    }
}

/// Cuts the rest of a file into pieces, which are taken one behind another. Says whether that is done: where it is not, what is left is
/// larger than a piece, and no piece can be cut off.
#[tactic(auto, using(crate::proofs::Sizes::sizes))]
pub fn cut_rest<P: PieceSink>(rest: &[u8], size: Size, to: &mut P) -> Result<bool, Failed>
    ensures later { P.faults to.old ≤ P.faults to.new }
    ensures cut { IfOk result (λ done. OnTrue done ((skip_first : Bool) → TookPieces rest.now skip_first (P.taken to.old) (P.taken to.new))) }
    ensures within { OnOk result (TookWithin size.records size.bytes (P.taken to.old) (P.taken to.new)) }
    ensures uncut { IfOk result (λ done. OnFalse done (IsUncut rest.now size.bytes)) }
    ensures failed { OnErr result (Rose P.stays_at_last (P.faults to.old) (P.faults to.new)) }
{
    let mut from = 0;
    let mut end = rest_end(rest, from, size);
    while from < end && end < rest.len() {
        to.take(&rest[from..end])?;
        from = end;
        end = rest_end(rest, from, size);
    }
    if end < rest.len() {
        return Ok(false);
    }
    to.take(&rest[from..])?;
    Ok(true)
}

// Where the piece that begins at `from` ends; at `from` where there is none, though there are bytes.
#[tactic(auto, using(crate::proofs::Sizes::ends))]
fn rest_end(bytes: &[u8], from: usize, size: Size) -> usize
    requires { from ≤ length bytes.now }
    ensures after { from ≤ result }
    ensures within { result ≤ length bytes.now }
    ensures cuts { from < result → result < length bytes.now → CutsOff (drop from bytes.now) (result - from) }
    ensures size { from < result → result < length bytes.now → IsWithin size.records size.bytes (take (result - from) (drop from bytes.now)) }
    ensures whole { result ≡ length bytes.now → IsWithin size.records size.bytes (drop from bytes.now) }
    ensures long { from ≡ result → result < length bytes.now → from + size.bytes < length bytes.now }
    ensures none { from ≡ result → result < length bytes.now → NoneUpTo (drop from bytes.now) size.bytes }
{
    let rest = &bytes[from..];
    let most = size.bytes.min(rest.len());
    let end = piece_end(rest, size.records, most);
    if end.full {
        return from + end.place;
    }
    if rest.len() > size.bytes {
        from + end.place
    } else {
        bytes.len()
    }
}
