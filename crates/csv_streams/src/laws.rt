//! Laws over the definitions alone.
ghost use Rattle.csv_streams.specs.Faults.{FaultsAre};
ghost use Rattle.csv_streams.specs.FilePieces.{RecordsInPieces, RowsInPieces};
ghost use Rattle.csv_streams.specs.PrintedRead.{PrintedRowsAreRead};
ghost use Rattle.csv_streams.specs.SpreadOut.{EachInstantHasABatch, NoRowIsLost};
ghost use Rattle.csv_streams.specs.TimedWritten.{ReadTimedAreWritten, TimedFaultsAre, ReadTimedHaveWidth};
ghost use Rattle.csv_streams.specs.Writing.{ReadIsWritten, WrittenIsRead};
ghost use Rattle.csv_streams.specs.Written.{ReadRowsAreWritten, WrittenRowsAreRead, ReadRowsHaveWidth};

/// A field of which a value is read writes that value.
pub fn what_is_read_is_written()
    ensures { ReadIsWritten }
{}

/// Of a field that writes a value that value is read.
pub fn what_is_written_is_read()
    ensures { WrittenIsRead }
{}

/// A file of which rows are read writes these rows.
pub fn rows_that_are_read_are_written()
    ensures { ReadRowsAreWritten }
{}

/// Of a file that writes rows, at most 100,000, these are read.
pub fn rows_that_are_written_are_read()
    ensures { WrittenRowsAreRead }
{}

/// Rows that are read of a file have the width that was asked.
pub fn rows_that_are_read_have_the_width()
    ensures { ReadRowsHaveWidth }
{}

/// A fault is told of a file exactly where it is the first fault of the first record that has one, and each record before writes a row.
pub fn faults_are()
    ensures { FaultsAre }
{}

/// Timed rows are read of a file exactly where it writes them, and are at most 100,000. Timestamps are neither below 0 nor below the
/// one before.
pub fn timed_rows_that_are_read_are_written()
    ensures { ReadTimedAreWritten }
{}

/// A fault is told of a file of timed rows exactly where it is the first fault of the first record that has one, and each record
/// before writes a timed row.
pub fn timed_faults_are()
    ensures { TimedFaultsAre }
{}

/// Timed rows that are read of a file have the width that was asked.
pub fn timed_rows_that_are_read_have_the_width()
    ensures { ReadTimedHaveWidth }
{}

/// Rows that are spread over instants have a batch for each instant, in their order, and of a file that is read no row is lost or
/// doubled, where the instants rise and have all its timestamps.
pub fn no_row_is_lost()
    ensures batches { EachInstantHasABatch }
    ensures rows { NoRowIsLost }
{}

/// Rows that are printed, line by line, are read of these lines.
pub fn printed_rows_are_read()
    ensures { PrintedRowsAreRead }
{}

/// The records of a file that is cut behind a record are those of the first piece and then those of the other.
pub fn records_in_pieces()
    ensures { RecordsInPieces }
{}

/// So are its rows, where the first piece has the header.
pub fn rows_in_pieces()
    ensures { RowsInPieces }
{}
