// The best for each key.
ghost use Rattle.std.specs.Prelude.{◌≡◌, ◌≤◌, ◌<◌, ◌+◌, ◌++◌, map, [], length, IfOk, OnOk, OnErr};
ghost use Rattle.kern_tables.specs.Keyed.{put};
ghost use Rattle.river_base.specs.Row.{row_cmp};
ghost use Rattle.kern_tables.specs.Tables.{ranked_row};
ghost use Rattle.kern_tables.specs.Entries.{split, best_more, maximum_rows};

use crate::{Best, Key, Ranked, key_of, row_of};
use river_base::{NoMemory, Row, Rows};
use std::alloc::Global;
use std::collections::BTreeMap;
use std::marker::Model;

/// The best for each key, which contracts see as the list of keys and lists by rank in the order of keys.
#[derive(Drop)]
pub struct Maxima {
    maxima: BTreeMap<Key, Best>,
    alloc: Global,
}

impl Model for Maxima {
    ghost use Rattle.std.specs.Prelude.{ℤ, List};
    ghost use Rattle.kern_tables.specs.declared.ranked.Ranked as ranked;
    ghost use Rattle.kern_tables.specs.Entries.{AreShort};

    ghost Value = { List (List ℤ × List ranked.Ranked) };

    ghost view = { λ s. s.maxima.entries };

    ghost invariant = { λ s. AreShort 14 s.maxima.entries };
}

impl Maxima {
    /// Nothing.
    pub fn new(alloc: Global) -> Maxima
        ensures { result ≡ [] }
    {
        Maxima {
            maxima: BTreeMap::new(alloc),
            alloc,
        }
    }

    /// One more row of so many keys, of which at most `best` are kept for each key; changes nothing where there is no memory.
    pub fn add(&mut self, best: usize, keys: usize, row: &Row) -> Result<(), NoMemory>
        requires { keys + 2 ≤ length row.now }
        ensures ok { OnOk result (self.new ≡ put row_cmp [] (best_more best) self.old (split keys row.now)) }
        ensures err { OnErr result (self.new ≡ self.old) }
    {
        let key = key_of(row, keys);
        let ranked = Ranked {
            weight: row.values()[keys + 1],
            value: row.values()[keys],
        };
        if let Some(kept) = self.maxima.get_mut(&key) {
            return kept.add(best, ranked);
        }
        let mut first = Best::new(self.alloc);
        first.add(best, ranked)?;
        self.maxima.insert(key, first)?;
        Ok(())
    }

    /// The keys with their best, as rows.
    pub fn rows(&self, alloc: Global) -> Result<Rows, NoMemory>
        ensures { IfOk result (λ rows. rows ≡ maximum_rows self.now) }
    {
        let mut rows = Rows::new(alloc);
        for (key, best) in &self.maxima {
            add_ranked(alloc, key, best, &mut rows)?;
        }
        Ok(rows)
    }
}

// The rows of a key.
fn add_ranked(alloc: Global, key: &Key, best: &Best, rows: &mut Rows) -> Result<(), NoMemory>
    requires { length key.now ≤ 14 }
    ensures { OnOk result (rows.new ≡ rows.old ++ map (ranked_row key.now) best.now) }
{
    let all = best.ranked(alloc)?;
    for r in all.as_slice() {
        rows.push(row_of(&key.pushed(r.value), r.weight))?;
    }
    Ok(())
}
