//! Laws over the definitions alone.
ghost use Rattle.cql_text.specs.Laws.{OneProgram, ReadsWhatStands};

/// A text stands for one program at most.
pub fn one_program()
    ensures { OneProgram }
{}

/// Each unit is read exactly: what is read stands in the grammar for what is given, and what stands there is read.
pub fn units_are_read_exactly()
    ensures { ReadsWhatStands }
{}
