//! Laws over the definitions alone.
ghost use Rattle.piece_keep.specs.Fed.{InputsAreFronts};
ghost use Rattle.piece_keep.specs.Fronts.{FrontsAreCut};
ghost use Rattle.piece_keep.specs.Mark.{MarksTellPlaces};

/// All pieces of a file but the last are the pieces of its front, which ends with a record.
pub fn fronts_are_cut()
    ensures { FrontsAreCut }
{}

/// The records of all jobs but the last are that front.
pub fn inputs_are_fronts()
    ensures { InputsAreFronts }
{}

/// A mark tells its place.
pub fn marks_tell_places()
    ensures { MarksTellPlaces }
{}
