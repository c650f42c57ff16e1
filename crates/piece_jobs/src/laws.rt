//! Laws over the definitions alone.
ghost use Rattle.piece_jobs.specs.Progress.{OneProgress, TextsSayProgress};

/// What is written of a progress says it.
pub fn texts_say_progress()
    ensures { TextsSayProgress }
{}

/// And a text says one progress at most.
pub fn one_progress()
    ensures { OneProgress }
{}
