//! Laws over the definitions alone.
ghost use Rattle.stream_pieces.specs.Files.{SlicesOfBytes, StreamPiecesByPlan, StreamFaultIsTheWholes};

/// What stands between two cuts of a file has the records between them.
pub fn slices_of_bytes()
    ensures { SlicesOfBytes }
{}

/// What runs on the pieces print, put together by lines, is what the program means for the whole file.
pub fn stream_pieces_by_plan()
    ensures { StreamPiecesByPlan }
{}

/// The fault of a record that the first refused piece has is the whole file's, with the number of the record in it.
pub fn stream_fault_is_the_wholes()
    ensures { StreamFaultIsTheWholes }
{}
