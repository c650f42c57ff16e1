//! Laws over the definitions alone.
ghost use Rattle.lap_cuts.specs.Laps.{LapsAreRecords};

/// The records of pieces that overlap are those of the file.
pub fn laps_are_records()
    ensures { LapsAreRecords }
{}
