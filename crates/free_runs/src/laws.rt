//! Laws over the definitions alone.
ghost use Rattle.free_runs.specs.Journals.{JournalIsPrinted};

/// For each valid program, all rows, one worker or more, and all picks there is one journal, and it is what is printed.
#[tactic(auto, using(crate::proofs::Printed::journal_is_printed))]
pub fn journal_is_printed()
    ensures { JournalIsPrinted }
{}
