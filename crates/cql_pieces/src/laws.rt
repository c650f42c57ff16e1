//! Laws over the definitions alone.
ghost use Rattle.cql_pieces.specs.Beginning.{FromTheBeginning};
ghost use Rattle.cql_pieces.specs.Every.{EveryCutGivesTheWhole, EveryRunGivesTheWhole};
ghost use Rattle.cql_pieces.specs.Files.{PieceFilesAreRead};
ghost use Rattle.cql_pieces.specs.Lead.{LeadIsEnough};
ghost use Rattle.cql_pieces.specs.Numbers.{TextsHaveNumbers};
ghost use Rattle.cql_pieces.specs.Tool.{FilesGiveTheWhole};
ghost use Rattle.cql_pieces.specs.Text.{TextsGiveTheWhole};
ghost use Rattle.cql_pieces.specs.Values.{MeansValues};
ghost use Rattle.cql_pieces.specs.Whole.{PiecesAreCut, SettledIsWhole, PiecesGiveTheWhole};

/// The instants of a piece are those of the whole in its stretch of time, and its files have the whole's rows at each of them.
pub fn pieces_are_cut()
    ensures { PiecesAreCut }
{}

/// What a program gives on a piece is, at each instant above the query's bound, what it gives on the whole.
pub fn settled_is_whole()
    ensures { SettledIsWhole }
{}

/// What the pieces give in their spans, one behind another, is what the program gives on the whole.
pub fn pieces_give_the_whole()
    ensures { PiecesGiveTheWhole }
{}

/// What is kept of the texts that are printed of the pieces, the lines of each span, one behind another by query, is what is printed
/// of the whole.
pub fn texts_give_the_whole()
    ensures { TextsGiveTheWhole }
{}

/// The piece of a file, written as a line for each of its rows, is read as these rows.
pub fn piece_files_are_read()
    ensures { PieceFilesAreRead }
{}

/// The numbers of a program that a text stands for are values of 64 bits.
pub fn texts_have_numbers()
    ensures { TextsHaveNumbers }
{}

/// Programs and files of values of 64 bits mean rows of such values.
pub fn means_values()
    ensures { MeansValues }
{}

/// Files of any length are cut, the program is run on each piece, and what is kept of the texts is the text of the whole.
pub fn files_give_the_whole()
    ensures { FilesGiveTheWhole }
{}

/// A piece that begins with the files is right everywhere.
pub fn from_the_beginning()
    ensures { FromTheBeginning }
{}

/// A piece with the leads that are reckoned from the program is right from the beginning of its span on.
pub fn lead_is_enough()
    ensures { LeadIsEnough }
{}

/// With these leads every way to cut the time gives the whole.
pub fn every_cut_gives_the_whole()
    ensures { EveryCutGivesTheWhole }
{}

/// Of files of any length, the program of a text is run on the pieces of every way to cut the time, each with these leads: what is kept of
/// what the runs print, the lines of each span, query by query, is what is printed of the whole.
pub fn every_run_gives_the_whole()
    ensures { EveryRunGivesTheWhole }
{}
