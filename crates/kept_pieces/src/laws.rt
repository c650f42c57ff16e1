//! Laws over the definitions alone.
ghost use Rattle.kept_pieces.specs.Kept.{FrontIsKept, GrownFaultIsTheWholes, KeptGoesOn, PiecesHaveTheRecords};

/// What is merged of all pieces of a file but the last may be kept.
pub fn front_is_kept()
    ensures { FrontIsKept }
{}

/// With what is kept, so may what is merged of all pieces of the new part but the last.
pub fn kept_goes_on()
    ensures { KeptGoesOn }
{}

/// A file has as many records as its pieces have together.
pub fn pieces_have_the_records()
    ensures { PiecesHaveTheRecords }
{}

/// The fault of a piece of the new part is that of the whole file, with the record's number in it.
pub fn grown_fault_is_the_wholes()
    ensures { GrownFaultIsTheWholes }
{}
