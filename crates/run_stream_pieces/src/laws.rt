//! Laws over the definitions alone.
ghost use Rattle.run_stream_pieces.specs.Ran.{StreamRunsPrint, RiverStreamsByPlan};

/// A run that is done prints what the program means for the rows of its input.
pub fn stream_runs_print()
    ensures { StreamRunsPrint }
{}

/// What calls of `river` write for the pieces, put together by lines, is what the program means for the whole file.
pub fn river_streams_by_plan()
    ensures { RiverStreamsByPlan }
{}
