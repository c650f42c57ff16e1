//! Laws over the definitions alone.
ghost use Rattle.params_model.specs.Constants.{ConstantsAreFit};
ghost use Rattle.params_model.specs.Events.{MakingRefusalsAre, MakingIsDone};
ghost use Rattle.params_model.specs.Faults.{RefusalsAre, AcceptedAre};
ghost use Rattle.params_model.specs.Laws.{ElaborationMeans, ElaboratedMeans, MadeStands, ElaboratedStands, TextsAreWritten};

/// The plain program that is made of a program with parameters means what that means.
#[tactic(auto, using(crate::proofs::Instances::elaboration_means, crate::proofs::Accepted::elaborated_means))]
pub fn elaborated_means()
    ensures made { ElaborationMeans }
    ensures accepted { ElaboratedMeans }
{}

/// The text of the plain program that is made stands for that program alone. So whatever program is
/// read of it means what the program with parameters means.
#[tactic(auto, using(crate::proofs::MadeStands::made_stands, crate::proofs::MadeStands::elaborated_stands))]
pub fn elaborated_stands()
    ensures made { MadeStands }
    ensures accepted { ElaboratedStands }
{}

/// What the grammar has of a text is within the bounds that the other laws ask for.
#[tactic(auto, using(crate::proofs::Readable::texts_are_written))]
pub fn texts_are_written()
    ensures { TextsAreWritten }
{}

/// So is each number of a rate, a weight, a bound or an argument.
#[tactic(auto, using(crate::proofs::FitConstants::constants_are_fit))]
pub fn constants_are_fit()
    ensures { ConstantsAreFit }
{}

/// A program is refused for its text exactly where its first faulty place says, and is not where no
/// place has a fault.
#[tactic(auto, using(crate::proofs::Refused::refusals_are, crate::proofs::Refused::accepted_are))]
pub fn refusals_are()
    ensures refused { RefusalsAre }
    ensures accepted { AcceptedAre }
{}

/// What is made of a program whose text has no fault is refused exactly where something that happens
/// meanwhile is wrong, with the first that is; and it is made exactly where nothing is.
#[tactic(auto, using(crate::proofs::Events::making_refusals_are, crate::proofs::Events::making_is_done))]
pub fn making_refusals_are()
    ensures refused { MakingRefusalsAre }
    ensures done { MakingIsDone }
{}
