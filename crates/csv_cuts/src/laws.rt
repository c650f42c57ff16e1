//! Laws over the definitions alone.
ghost use Rattle.csv_cuts.specs.Cut.{CountsAreRecords, WindowsDecide};
ghost use Rattle.csv_cuts.specs.Faults.{FaultsWithinTheLimit, OneFaultOfAll, FaultOrRows, FaultsInPieces};

/// As many records end in the bytes as the file has.
pub fn counts_are_records()
    ensures { CountsAreRecords }
{}

/// The fault of a file, however many records it has, is told of the file where it has no more of them than one run takes.
pub fn faults_within_the_limit()
    ensures { FaultsWithinTheLimit }
{}

/// A file has one fault at most, however many records it has.
pub fn one_fault_of_all()
    ensures { OneFaultOfAll }
{}

/// And it has rows or a fault, and not both.
pub fn fault_or_rows()
    ensures { FaultOrRows }
{}

/// The fault of the first piece that has one is that of the whole file, with the record's number in it.
pub fn faults_in_pieces()
    ensures { FaultsInPieces }
{}

/// Whether a file may be cut is decided within a window of it.
pub fn windows_decide()
    ensures { WindowsDecide }
{}
