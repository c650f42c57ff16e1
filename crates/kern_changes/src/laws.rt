//! Laws of changes, each the contract of a function that does nothing.
ghost use Rattle.kern_changes.specs.Laws.{ChangesAre, StandForOne, NothingIsOwed};

/// Between contents that ascend there is just one list of normalised changes that stands for them.
pub fn changes_are()
    ensures { ChangesAre }
{}

/// A list of changes stands for one list of contents at most.
pub fn stand_for_one()
    ensures { StandForOne }
{}

/// What lists owe at the start leads from empty contents to empty contents.
pub fn nothing_is_owed()
    ensures { NothingIsOwed }
{}
