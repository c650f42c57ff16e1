// Keys of tables.
ghost use Rattle.std.specs.Prelude.{◌≡◌, ◌≤◌, ◌<◌, [], ◌∷◌, ◌++◌, take, length};

use river_base::{Row, Values};

/// A key of at most 16 values.
pub(crate) type Key = Values;

/// The key of a row: its first values.
pub(crate) fn key_of(row: &Row, keys: usize) -> Key
    requires { keys ≤ length row.now }
    ensures { result ≡ take keys row.now }
{
    Values::from_slice(&row.values()[..keys])
}

/// The row of a key and a value; the key has fewer than 16.
pub(crate) fn row_of(key: &Key, value: i64) -> Row
    requires { length key.now < 16 }
    ensures { result ≡ key.now ++ value ∷ [] }
{
    Row::from_slice(key.pushed(value).as_slice())
}
