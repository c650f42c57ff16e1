//! Laws over the definitions alone.
ghost use Rattle.cql_front.specs.Laws.{MeansWhatItHas, PlansMean, PlansArePrintable};

/// What a text means is what it has in the grammar, and what judging says of the program.
pub fn texts_mean_what_they_have()
    ensures { MeansWhatItHas }
{}

/// The plan of a program that a text means is valid, and means what the program means.
pub fn plans_mean()
    ensures { PlansMean }
{}

/// The plan of each tree is within the bounds of River text, so where it is valid, its text is read back as it.
pub fn plans_are_printable()
    ensures { PlansArePrintable }
{}
