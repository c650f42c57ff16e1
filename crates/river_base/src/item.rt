// What queues carry.
ghost use Rattle.std.specs.Prelude.{◌≡◌, ◌↔◌, [], IsTrue};

use crate::{Listed, Row};

/// A list of rows.
pub type Rows = Listed<Row>;

/// The rows of one instant.
#[derive(PartialEq, Eq, Drop)]
pub struct Batch {
    pub at: i64,
    pub rows: Rows,
}

/// What comes to a relation and what goes, at an instant. Between two contents there is one
/// change whose parts ascend and have no row in common.
#[derive(PartialEq, Eq, Drop)]
pub struct Change {
    pub at: i64,
    pub plus: Rows,
    pub minus: Rows,
}

impl Change {
    /// Whether nothing comes and nothing goes.
    pub fn is_nothing(&self) -> bool
        ensures { IsTrue result ↔ ((self.now.plus ≡ []) × (self.now.minus ≡ [])) }
    {
        self.plus.is_empty() && self.minus.is_empty()
    }
}

/// An item that is no pack: a row, the rows of one instant, or the change of a relation.
#[derive(PartialEq, Eq, Drop)]
pub enum Flat {
    One(Row),
    Batch(Batch),
    Change(Change),
}

/// A list of items that are no packs.
pub type Flats = Listed<Flat>;

/// What a queue carries: a row, a batch, a change, or a pack of such.
#[derive(PartialEq, Eq, Drop)]
pub enum Item {
    Flat(Flat),
    Pack(Flats),
}

/// A list of items.
pub type Items = Listed<Item>;

/// Rows of a file, each with its timestamp.
pub type TimedRows = Listed<(i64, Row)>;

/// The rows of several files.
pub type TimedFiles = Listed<TimedRows>;
