//! Laws over the definitions alone.
ghost use Rattle.river_outside.specs.Laws.{OneVerdict, SomeVerdict, VerdictUntold, OnlyTurnsMatter};

/// Over files that are told there is at most one verdict.
pub fn told_files_have_one_verdict()
    ensures { OneVerdict }
{}

/// Over files that are told the verdict is one.
pub fn told_files_have_a_verdict()
    ensures { SomeVerdict }
{}

/// A verdict over files that are told may also be said where they are not told.
pub fn a_verdict_may_be_said_untold()
    ensures { VerdictUntold }
{}

/// No file matters but those whose turn comes.
pub fn only_files_in_turn_matter()
    ensures { OnlyTurnsMatter }
{}
