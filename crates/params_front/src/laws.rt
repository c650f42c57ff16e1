//! Laws over the definitions alone.
ghost use Rattle.params_front.specs.Laws.{ElaborationHas, MeansWhatItHas, PlainMeans, PlansMean, PlansInTurn, PlansArePrintable};

/// What is made of a text is what is made of the program that it has in the grammar, or the first fault of that.
#[tactic(auto, using(crate::proofs::Fronts::elaboration_has))]
pub fn elaborations_are_of_programs()
    ensures { ElaborationHas }
{}

/// What a text means is what is made of it, compiled: it is refused exactly where nothing is made, or where its plain
/// program is refused.
#[tactic(auto, using(crate::proofs::Compiling::means_what_it_has))]
pub fn texts_mean_what_is_compiled()
    ensures { MeansWhatItHas }
{}

/// The plain program of a text that is accepted gives for each input what the program gives.
#[tactic(auto, using(crate::proofs::Compiling::plain_means))]
pub fn plain_programs_mean()
    ensures { PlainMeans }
{}

/// The plan of a text that is accepted is valid, and means what the program means.
#[tactic(auto, using(crate::proofs::Compiling::plans_mean))]
pub fn plans_mean()
    ensures { PlansMean }
{}

/// It declares queues and variables in the order in which its operators first use them.
#[tactic(auto, using(crate::proofs::Compiling::plans_in_turn))]
pub fn plans_in_turn()
    ensures { PlansInTurn }
{}

/// What is printed of it is River text, and stands for it and for no other.
#[tactic(auto, using(crate::proofs::Compiling::plans_are_printable))]
pub fn plans_are_printable()
    ensures { PlansArePrintable }
{}
