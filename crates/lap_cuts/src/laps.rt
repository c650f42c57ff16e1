// Pieces that overlap are cut off a window of a file.
ghost use Rattle.std.specs.Prelude.{◌≡◌, ◌≤◌, ◌<◌, ◌+◌, ◌-◌, true, false, drop, take, length, IfSome, IfOk, OnErr};
ghost use Rattle.std.specs.Bool.{OnTrue};
ghost use Rattle.csv_streams.specs.Records.{csv_records};
ghost use Rattle.csv_cuts.specs.Window.{CutsOff};
ghost use Rattle.river_outside.specs.Causes.{Rose};
ghost use Rattle.lap_cuts.specs.Laps.{CutsLap, HeaderEnds, TookLaps, TookFrom};

use csv_cuts::{PieceSink, piece_end, records_in};
use river_outside::Failed;

/// How large pieces that overlap are.
#[derive(Clone, Copy)]
pub struct Laps {
    /// How many records a piece has; the last one may have fewer.
    pub records: usize,
    /// Behind how many records of a piece the next one begins.
    pub step: usize,
}

/// Where a piece ends, and where the next one begins.
#[derive(Clone, Copy)]
struct Lap {
    end: usize,
    next: usize,
}

// The place, up to `most`, before which the file may be cut so that so many records are before it.
fn place_behind(bytes: &[u8], records: usize, most: usize) -> Option<usize>
    requires { most ≤ length bytes.now }
    ensures within { IfSome result (λ place. place ≤ most) }
    ensures some { IfSome result (λ place. 0 < place) }
    ensures cuts { IfSome result (λ place. CutsOff bytes.now place) }
    ensures many { IfSome result (λ place. length (csv_records (take place bytes.now)) ≡ records) }
{
    let place = piece_end(bytes, records, most).place;
    if place > 0 && records_in(&bytes[..place]) == records {
        Some(place)
    } else {
        None
    }
}

// The piece at the front of the bytes that ends at `most` or before.
fn lap_of(bytes: &[u8], laps: Laps, most: usize) -> Option<Lap>
    requires { most ≤ length bytes.now }
    ensures within { IfSome result (λ lap. lap.end ≤ most) }
    ensures next { IfSome result (λ lap. (0 < lap.next) × (lap.next ≤ lap.end)) }
    ensures cuts { IfSome result (λ lap. CutsLap laps.records laps.step bytes.now lap.end lap.next) }
{
    let end = place_behind(bytes, laps.records, most)?;
    let next = place_behind(bytes, laps.step, end)?;
    Some(Lap { end, next })
}

/// Cuts pieces off the front of a window of a file of which more may come, and takes them one behind another. Says behind how many
/// bytes the next one begins: none only where no piece can be cut off.
#[tactic(auto, using(crate::proofs::Cuts::starts))]
pub(crate) fn laps_of_front<P: PieceSink>(
    window: &[u8],
    laps: Laps,
    to: &mut P,
) -> Result<usize, Failed>
    ensures later { P.faults to.old ≤ P.faults to.new }
    ensures took { IfOk result (λ count. TookFrom laps.records laps.step window.now count (P.taken to.old) (P.taken to.new)) }
    ensures failed { OnErr result (Rose P.stays_at_last (P.faults to.old) (P.faults to.new)) }
{
    let mut from = 0;
    let mut lap = lap_in_front(window, from, laps);
    while from < lap.next {
        to.take(&window[from..lap.end])?;
        from = lap.next;
        lap = lap_in_front(window, from, laps);
    }
    Ok(from)
}

// The piece that begins at `from`, with three bytes of the window behind it, in places of the window; the next one begins at `from` where
// there is none.
fn lap_in_front(window: &[u8], from: usize, laps: Laps) -> Lap
    requires { from ≤ length window.now }
    ensures after { from ≤ result.next }
    ensures within { from < result.next → result.end + 3 ≤ length window.now }
    ensures ordered { from < result.next → result.next ≤ result.end }
    ensures cuts { from < result.next → CutsLap laps.records laps.step (drop from window.now) (result.end - from) (result.next - from) }
{
    let rest = &window[from..];
    if rest.len() < 3 {
        return none_at(from);
    }
    match lap_of(rest, laps, rest.len() - 3) {
        Some(lap) => Lap {
            end: from + lap.end,
            next: from + lap.next,
        },
        None => none_at(from),
    }
}

// No piece begins here.
fn none_at(from: usize) -> Lap
    ensures { result.next ≡ from }
{
    Lap {
        end: from,
        next: from,
    }
}

/// Cuts the rest of a file into pieces, which are taken one behind another. Says whether that is done: where it is not, more records
/// are left than a piece has, and no piece can be cut off.
#[tactic(auto, using(crate::proofs::Cuts::starts))]
pub(crate) fn laps_of_rest<P: PieceSink>(
    rest: &[u8],
    laps: Laps,
    to: &mut P,
) -> Result<bool, Failed>
    ensures later { P.faults to.old ≤ P.faults to.new }
    ensures took { IfOk result (λ done. OnTrue done (TookLaps laps.records laps.step rest.now (P.taken to.old) (P.taken to.new))) }
    ensures failed { OnErr result (Rose P.stays_at_last (P.faults to.old) (P.faults to.new)) }
{
    let mut from = 0;
    let mut lap = lap_in_rest(rest, from, laps);
    while from < lap.next {
        to.take(&rest[from..lap.end])?;
        from = lap.next;
        lap = lap_in_rest(rest, from, laps);
    }
    if records_in(&rest[from..]) > laps.records {
        return Ok(false);
    }
    to.take(&rest[from..])?;
    Ok(true)
}

// The piece that begins at `from` and has bytes behind it, in places of the rest of the file; the next one begins at `from` where there
// is none.
fn lap_in_rest(rest: &[u8], from: usize, laps: Laps) -> Lap
    requires { from ≤ length rest.now }
    ensures after { from ≤ result.next }
    ensures within { from < result.next → result.end < length rest.now }
    ensures ordered { from < result.next → result.next ≤ result.end }
    ensures cuts { from < result.next → CutsLap laps.records laps.step (drop from rest.now) (result.end - from) (result.next - from) }
{
    let bytes = &rest[from..];
    match lap_of(bytes, laps, bytes.len()) {
        Some(lap) if lap.end < bytes.len() => Lap {
            end: from + lap.end,
            next: from + lap.next,
        },
        _ => none_at(from),
    }
}

/// Where the header of a file ends, of which this is the front, if `full`, or all.
pub(crate) fn header_end(bytes: &[u8], full: bool) -> Option<usize>
    ensures within { IfSome result (λ place. place ≤ length bytes.now) }
    ensures ends { IfSome result (HeaderEnds full bytes.now) }
{
    if full {
        header_in_front(bytes)
    } else {
        header_in_all(bytes)
    }
}

// Where it ends, of which this is the front.
#[tactic(auto, using(crate::proofs::Cuts::headers))]
fn header_in_front(bytes: &[u8]) -> Option<usize>
    ensures within { IfSome result (λ place. place ≤ length bytes.now) }
    ensures ends { IfSome result (HeaderEnds true bytes.now) }
{
    if bytes.len() < 3 {
        return None;
    }
    place_behind(bytes, 1, bytes.len() - 3)
}

// Where it ends, of which these are all bytes.
#[tactic(auto, using(crate::proofs::Cuts::headers))]
fn header_in_all(bytes: &[u8]) -> Option<usize>
    ensures within { IfSome result (λ place. place ≤ length bytes.now) }
    ensures ends { IfSome result (HeaderEnds false bytes.now) }
{
    if records_in(bytes) <= 1 {
        return Some(bytes.len());
    }
    place_behind(bytes, 1, bytes.len())
}
