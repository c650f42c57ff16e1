//! Laws over the definitions alone.
ghost use Rattle.stream_laps.specs.Laps.{OverlapsAreSlices, LapsGiveTheWhole};

/// Pieces that overlap so are the pieces of whole periods that the law on the whole asks for.
pub fn overlaps_are_slices()
    ensures { OverlapsAreSlices }
{}

/// The lines that are kept of what runs on them print are what the program means for the whole file.
pub fn laps_give_the_whole()
    ensures { LapsGiveTheWhole }
{}
