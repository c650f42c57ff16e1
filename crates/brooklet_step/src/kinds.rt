// Which items have a type, and which a queue may hold.
ghost use Rattle.std.specs.Prelude.{◌≡◌, ◌↔◌, ◌⊎◌, ℤ, List, IsTrue};
ghost use Rattle.river_base.specs.Held.{HasType, IsHeld, MayHold, HasFlatType, HaveWidth, IsAscending};
ghost use Rattle.river_base.specs.Row.{copies};
ghost use Rattle.river_base.specs.Changes.{IsNormal, IsWideChange, IsChangeOf};

use river_base::{Change, Flat, FlatType, Item, QueueType, Row, Rows};

/// Whether a queue of this type may hold the item: in a relation's queue a change of rows so wide,
/// whose parts ascend and have no row in common, and else a row or a batch of the type. A queue of
/// packs may hold packs of such.
#[tactic(auto, unfolding(river_base::specs::Held::IsHeld))]
pub fn item_fits(kind: &QueueType, item: &Item) -> bool
    ensures { IsTrue result ↔ IsHeld kind.now item.now }
{
    match kind {
        QueueType::Flat(kind) => match item {
            Item::Flat(flat) => may_hold(kind, flat),
            Item::Pack(_) => false,
        },
        QueueType::Pack(kind) => match item {
            Item::Flat(_) => false,
            Item::Pack(flats) => flats.as_slice().iter().all(|flat| may_hold(kind, flat)),
        },
    }
}

fn may_hold(kind: &FlatType, flat: &Flat) -> bool
    ensures { IsTrue result ↔ MayHold kind.now flat.now }
{
    match kind {
        FlatType::Rows(_) | FlatType::Stream(_) => flat_fits(kind, flat),
        FlatType::Relation(width) => match flat {
            Flat::One(_) | Flat::Batch(_) => false,
            Flat::Change(change) => is_change_of(*width, change),
        },
    }
}

fn is_change_of(width: u32, change: &Change) -> bool
    ensures { IsTrue result ↔ IsChangeOf width change.now }
{
    is_wide(width, change) && is_normal(change)
}

fn is_wide(width: u32, change: &Change) -> bool
    ensures { IsTrue result ↔ IsWideChange width change.now }
{
    have_width(width, &change.plus) && have_width(width, &change.minus)
}

fn is_normal(change: &Change) -> bool
    ensures { IsTrue result ↔ IsNormal change.now }
{
    both_ascend(change) && are_apart(&change.plus, &change.minus)
}

fn both_ascend(change: &Change) -> bool
    ensures { IsTrue result ↔ (IsAscending change.now.plus × IsAscending change.now.minus) }
{
    are_ascending(&change.plus) && are_ascending(&change.minus)
}

// Whether the lists have no row in common.
fn are_apart(plus: &Rows, minus: &Rows) -> bool
    requires { IsAscending minus.now }
    ensures { IsTrue result ↔ ((row : List ℤ) → (copies row plus.now ≡ 0) ⊎ (copies row minus.now ≡ 0)) }
{
    for row in plus.as_slice() {
        if !is_missing(row, minus) {
            return false;
        }
    }
    true
}

// Whether the row is not among these, by a search: they ascend.
fn is_missing(row: &Row, rows: &Rows) -> bool
    requires { IsAscending rows.now }
    ensures { IsTrue result ↔ (copies row.now rows.now ≡ 0) }
{
    rows.as_slice().binary_search(row).is_err()
}

/// Whether an item has this type.
pub fn has_type(kind: &QueueType, item: &Item) -> bool
    ensures { IsTrue result ↔ HasType kind.now item.now }
{
    match kind {
        QueueType::Flat(kind) => match item {
            Item::Flat(flat) => flat_fits(kind, flat),
            Item::Pack(_) => false,
        },
        QueueType::Pack(kind) => match item {
            Item::Flat(_) => false,
            Item::Pack(flats) => flats.as_slice().iter().all(|flat| flat_fits(kind, flat)),
        },
    }
}

fn flat_fits(kind: &FlatType, flat: &Flat) -> bool
    ensures { IsTrue result ↔ HasFlatType kind.now flat.now }
{
    match kind {
        FlatType::Rows(width) => match flat {
            Flat::One(row) => row.width() == *width as usize,
            Flat::Batch(_) | Flat::Change(_) => false,
        },
        FlatType::Stream(width) => match flat {
            Flat::One(_) | Flat::Change(_) => false,
            Flat::Batch(batch) => have_width(*width, &batch.rows),
        },
        FlatType::Relation(width) => match flat {
            Flat::One(_) | Flat::Change(_) => false,
            Flat::Batch(batch) => have_width(*width, &batch.rows) && are_ascending(&batch.rows),
        },
    }
}

fn have_width(width: u32, rows: &Rows) -> bool
    ensures { IsTrue result ↔ HaveWidth width rows.now }
{
    rows.as_slice()
        .iter()
        .all(|row| row.width() == width as usize)
}

fn are_ascending(rows: &Rows) -> bool
    ensures { IsTrue result ↔ IsAscending rows.now }
{
    rows.as_slice().is_sorted()
}
