//! Laws of splitters and joiners: they go by the numbers of their items.
ghost use Rattle.brooklet_model.specs.ByIndex.{DealsByIndex, CollectsByIndex, CollectsLongest};

/// A `deal` that is fed with a list gives item x to the branch in whose part of a cycle x modulo the cycle's length falls.
pub fn deals_by_index()
    ensures { DealsByIndex }
{}

/// A `collect` that is fed with a list for each port gives at place x the item of the branch in whose part of a cycle x modulo
/// the cycle's length falls: behind as many of them as the cycles before took, the one as far on as x is in that part.
pub fn collects_by_index()
    ensures { CollectsByIndex }
{}

/// What is collected is the longest front of these places of which each has its item.
pub fn collects_longest()
    ensures { CollectsLongest }
{}
