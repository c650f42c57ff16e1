// Values and their weights, by rank.
ghost use Rattle.std.specs.Prelude.{◌≡◌, Some};
ghost use Rattle.std.specs.Cmp.{partial_equiv_from_equiv, partial_order_from_agreeing_total};
ghost use Rattle.std.proofs.Common.{refl};
ghost use Rattle.kern_tables.specs.Tables.{rank_cmp};
ghost use Rattle.kern_tables.specs.Ranks.{rank_eq, rank_equiv, rank_total, rank_ties};

use std::cmp::Ordering;

/// A value and its weight. The greater weight comes first, and of equal weights the smaller value.
#[derive(Clone, Copy)]
pub struct Ranked {
    pub weight: i64,
    pub value: i64,
}

/// The order by rank.
pub(crate) fn compare_ranks(a: &Ranked, b: &Ranked) -> Ordering
    ensures { result ≡ rank_cmp a.now b.now }
{
    match b.weight.cmp(&a.weight) {
        Ordering::Less => Ordering::Less,
        Ordering::Equal => a.value.cmp(&b.value),
        Ordering::Greater => Ordering::Greater,
    }
}

impl PartialEq for Ranked {
    ghost eq = { rank_eq };

    ghost laws = { partial_equiv_from_equiv rank_equiv };

    fn eq(&self, other: &Ranked) -> bool {
        compare_ranks(self, other).is_eq()
    }
}

impl Eq for Ranked {
    ghost laws = { rank_equiv };
}

impl PartialOrd for Ranked {
    ghost partial_cmp = { λ a b. Some (rank_cmp a b) };

    ghost laws = { partial_order_from_agreeing_total rank_cmp rank_total (λ a b. refl) rank_ties };

    fn partial_cmp(&self, other: &Ranked) -> Option<Ordering> {
        Some(compare_ranks(self, other))
    }
}

impl Ord for Ranked {
    ghost cmp = { rank_cmp };

    ghost total = { rank_total };

    ghost matches_partial_cmp = { λ a b. refl };

    ghost matches_eq = { rank_ties };

    fn cmp(&self, other: &Ranked) -> Ordering {
        compare_ranks(self, other)
    }
}
