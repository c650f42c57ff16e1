// How often an operator fired.
ghost use Rattle.std.specs.Prelude.{◌≡◌, ◌+◌, min};
ghost use Rattle.brooklet_model.specs.Histories.{most_firings};

/// The most firings that are counted of an operator: 2^63 - 1.
const MOST: usize = 0x7fff_ffff_ffff_ffff;

/// The count after one more firing: the greatest stays.
pub fn next_count(count: usize) -> usize
    ensures { result ≡ min most_firings (count + 1) }
{
    if count < MOST { count + 1 } else { MOST }
}
