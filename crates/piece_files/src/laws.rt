//! Laws over the definitions alone.
ghost use Rattle.piece_files.specs.Names.{NamesDiffer};

/// No two files of a folder have one name.
pub fn files_have_names_of_their_own()
    ensures { NamesDiffer }
{}
