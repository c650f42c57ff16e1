// The best of what was given.
ghost use Rattle.std.specs.Prelude.{◌≡◌, [], take, IfOk, OnOk, OnErr, IsTrue};
ghost use Rattle.river_base.specs.Bags.{put_in_order};
ghost use Rattle.kern_tables.specs.Tables.{ranks_before};

use crate::Ranked;
use crate::ranked::compare_ranks;
use river_base::{Listed, NoMemory};
use std::alloc::Global;
use std::collections::BinaryHeap;
use std::marker::Model;

/// Values and their weights, the worst of which is at hand. Contracts see it as the list by rank.
#[derive(Drop)]
pub(crate) struct Best {
    heap: BinaryHeap<Ranked>,
}

impl Model for Best {
    ghost use Rattle.std.specs.Prelude.{List};
    ghost use Rattle.std.specs.BinaryHeap.{heap_items, IsHeap};
    ghost use Rattle.river_base.specs.Bags.{ascending};
    ghost use Rattle.kern_tables.specs.declared.ranked.Ranked as ranked;
    ghost use Rattle.kern_tables.specs.Tables.{rank_cmp, ranks_before};

    ghost Value = { List ranked.Ranked };

    ghost view = { λ b. ascending ranks_before (heap_items b.heap) };

    ghost invariant = { λ b. IsHeap rank_cmp (heap_items b.heap) };
}

impl Best {
    /// Nothing.
    pub fn new(alloc: Global) -> Best
        ensures { result ≡ [] }
    {
        Best {
            heap: BinaryHeap::new(alloc),
        }
    }

    // Whether as many as may be kept are kept, and this one ranks before none of them.
    fn keeps_out(&self, best: usize, r: &Ranked) -> bool
        ensures { IsTrue result → (take best (put_in_order ranks_before r.now self.now) ≡ self.now) }
    {
        if self.heap.len() != best {
            return false;
        }
        match self.heap.peek() {
            Some(worst) => !compare_ranks(r, worst).is_lt(),
            None => false,
        }
    }

    /// One more, of which at most `best` are kept; changes nothing where there is no memory.
    pub fn add(&mut self, best: usize, r: Ranked) -> Result<(), NoMemory>
        ensures ok { OnOk result (self.new ≡ take best (put_in_order ranks_before r self.old)) }
        ensures err { OnErr result (self.new ≡ self.old) }
    {
        if self.keeps_out(best, &r) {
            return Ok(());
        }
        self.heap.push(r)?;
        while self.heap.len() > best {
            self.heap.pop();
        }
        Ok(())
    }

    /// All of them, by rank.
    pub fn ranked(&self, alloc: Global) -> Result<Listed<Ranked>, NoMemory>
        ensures { IfOk result (λ all. all ≡ self.now) }
    {
        let mut items = Vec::from_slice(alloc, self.heap.as_slice())?;
        items.sort()?;
        let mut all = Listed::new(alloc);
        for r in items.as_slice() {
            all.push(*r)?;
        }
        Ok(all)
    }
}
