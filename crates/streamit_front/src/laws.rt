//! Laws over the definitions alone.
ghost use Rattle.streamit_front.specs.Laws.{MeansWhatItHas, TextsAreAccepted, PlansMean, PlansInTurn, PlansArePrintable};

/// What a text means is what it has in the grammar, and what judging says of the program: where it has a fault, that of the first
/// place that has one.
pub fn texts_mean_what_they_have()
    ensures { MeansWhatItHas }
{}

/// A text is accepted exactly where the grammar has it for a program of which no place has a fault.
pub fn texts_are_accepted()
    ensures { TextsAreAccepted }
{}

/// The plan of a program that is accepted is valid, and means what the program means.
pub fn plans_mean()
    ensures { PlansMean }
{}

/// It declares queues and variables in the order in which its operators first use them.
pub fn plans_in_turn()
    ensures { PlansInTurn }
{}

/// In the plan of a program that is accepted `if` nests at most 16 deep and no window is there, so the text that is printed of it is
/// River text, and stands for it and for no other.
pub fn plans_are_printable()
    ensures { PlansArePrintable }
{}
