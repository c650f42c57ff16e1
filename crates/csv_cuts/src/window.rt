// Where a piece ends in a window of a file.
ghost use Rattle.std.specs.Prelude.{◌≡◌, ◌≤◌, ◌<◌, ◌+◌, ◌↔◌, nat_lt, take, drop, length, true, false, IsTrue};
ghost use Rattle.csv_streams.specs.Records.{csv_records};
ghost use Rattle.csv_cuts.specs.Cut as cut;
ghost use Rattle.csv_cuts.specs.Window as window;

use crate::cut::{Stand, after, ends, ends_at_end, is_marked, is_start, mark_length};

/// A place at which a piece may be cut off.
#[derive(Clone, Copy)]
pub struct PieceEnd {
    /// How many bytes are before it; 0 where there is no such place.
    pub place: usize,
    /// Whether the bytes up to `most` have too many records, so that what follows them does not matter.
    pub full: bool,
}

/// The last place, up to `most`, at which a piece may be cut off that has at most so many records, or the first one at all where
/// none has so few.
#[tactic(auto, using(crate::proofs::Scan::whole))]
pub fn piece_end(bytes: &[u8], records: usize, most: usize) -> PieceEnd
    requires { most ≤ length bytes.now }
    ensures end { 0 < result.place → window.IsPieceEnd bytes.now records most result.place }
    ensures none { result.place ≡ 0 → window.NoneUpTo bytes.now most }
    ensures full { result.full ≡ true → (0 < result.place) × (records < length (csv_records (take most bytes.now))) }
    ensures few { result.full ≡ false → 0 < result.place → cut.HasFew bytes.now records most }
{
    let front = mark_length(bytes);
    if most < front {
        return PieceEnd {
            place: 0,
            full: false,
        };
    }
    scanned(bytes, front, records, most)
}

// What is found from the front on.
fn scanned(bytes: &[u8], front: usize, records: usize, most: usize) -> PieceEnd
    requires front { front ≡ cut.mark_length bytes.now }
    requires behind { front ≤ most }
    requires within { most ≤ length bytes.now }
    ensures end { 0 < result.place → window.IsPieceEnd bytes.now records most result.place }
    ensures none { result.place ≡ 0 → window.NoneUpTo bytes.now most }
    ensures full { result.full ≡ true → (0 < result.place) × (records < length (csv_records (take most bytes.now))) }
    ensures few { result.full ≡ false → 0 < result.place → cut.HasFew bytes.now records most }
{
    let mut stand = Stand::Record;
    let mut count = 0;
    let mut last = 0;
    for place in front..most {
        let byte = bytes[place];
        let ended = ends(stand, byte);
        if ended && last > 0 && count >= records {
            return PieceEnd {
                place: last,
                full: true,
            };
        }
        count = count_on(ended, count);
        stand = after(stand, byte);
        let here = is_end(stand, count, &bytes[place + 1..]);
        last = better(here, count, records, last, place + 1);
    }
    PieceEnd {
        place: last,
        full: last > 0 && is_many(stand, count, records),
    }
}

// Whether more than so many records end in the bytes, or with them.
fn is_many(stand: Stand, count: usize, records: usize) -> bool
    ensures { IsTrue result ↔ (records < count + window.at_last (cut.csv_state stand)) }
{
    count > records || (count == records && ends_at_end(stand))
}

fn count_on(ended: bool, count: usize) -> usize
    requires { count < usize.MAX }
    ensures { result ≡ window.count_on ended count }
{
    if ended { count + 1 } else { count }
}

// Whether a piece may be cut off here.
fn is_end(stand: Stand, count: usize, rest: &[u8]) -> bool
    ensures { result ≡ window.is_end (cut.csv_state stand) count rest.now }
{
    is_start(stand) && count > 0 && !is_marked(rest)
}

// The better of the last place and this one.
fn better(here: bool, count: usize, records: usize, last: usize, place: usize) -> usize
    ensures { result ≡ window.better here count records last place }
{
    if here && (count <= records || last == 0) {
        place
    } else {
        last
    }
}
