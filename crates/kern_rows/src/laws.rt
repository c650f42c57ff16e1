//! Laws of splitters and joiners, each the contract of a function that does nothing.
ghost use Rattle.kern_rows.specs.Laws.{JoinersStartEmpty};

/// What a joiner keeps at the start stands for empty contents, of which none waits.
pub fn joiners_start_empty()
    ensures { JoinersStartEmpty }
{}
