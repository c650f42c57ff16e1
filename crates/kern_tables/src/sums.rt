// A sum for each key.
ghost use Rattle.std.specs.Prelude.{◌≡◌, ◌<◌, pos, [], length, IfOk, OnOk, OnErr};
ghost use Rattle.kern_tables.specs.Keyed.{put};
ghost use Rattle.river_base.specs.Row.{row_cmp};
ghost use Rattle.kern_tables.specs.Tables.{add_value};
ghost use Rattle.kern_tables.specs.Entries.{split, sum_rows};

use crate::{Key, key_of, row_of};
use river_base::{NoMemory, Row, Rows, add};
use std::alloc::Global;
use std::collections::BTreeMap;
use std::marker::Model;

/// A sum for each key, which contracts see as the list of keys and sums in the order of keys.
#[derive(Drop)]
pub struct Sums {
    sums: BTreeMap<Key, i64>,
}

impl Model for Sums {
    ghost use Rattle.std.specs.Prelude.{ℤ, List};
    ghost use Rattle.kern_tables.specs.Entries.{AreShort};

    ghost Value = { List (List ℤ × ℤ) };

    ghost view = { λ s. s.sums.entries };

    ghost invariant = { λ s. AreShort 15 s.sums.entries };
}

impl Sums {
    /// Nothing.
    pub fn new(alloc: Global) -> Sums
        ensures { result ≡ [] }
    {
        Sums {
            sums: BTreeMap::new(alloc),
        }
    }

    /// One more row of so many keys; changes nothing where there is no memory.
    pub fn add(&mut self, keys: usize, row: &Row) -> Result<(), NoMemory>
        requires { keys < length row.now }
        ensures ok { OnOk result (self.new ≡ put row_cmp (pos 0) add_value self.old (split keys row.now)) }
        ensures err { OnErr result (self.new ≡ self.old) }
    {
        let key = key_of(row, keys);
        let value = row.values()[keys];
        if let Some(sum) = self.sums.get_mut(&key) {
            *sum = add(*sum, value);
            return Ok(());
        }
        self.sums.insert(key, value)?;
        Ok(())
    }

    /// The keys with their sums, as rows.
    pub fn rows(&self, alloc: Global) -> Result<Rows, NoMemory>
        ensures { IfOk result (λ rows. rows ≡ sum_rows self.now) }
    {
        let mut rows = Rows::new(alloc);
        for (key, sum) in &self.sums {
            rows.push(row_of(key, *sum))?;
        }
        Ok(rows)
    }
}
