//! Laws over the definitions alone.
ghost use Rattle.streamit_model.specs.Laws.{FedFilters, FedSplitters, FedJoiners, CollectsLongest, FiltersMean, SolutionsMean, PlansAreValid, PlansInTurn};
ghost use Rattle.streamit_model.specs.Laws.{FiringsAre, TranslationMeans, ProgramsMean};
ghost use Rattle.streamit_model.specs.Faults.{RefusalsAre, AcceptedAre};

/// Of a filter those firings take place, and no others, whose items are there, and it gives what they push.
pub fn firings_are()
    ensures { FiringsAre }
{}

/// Fed with the items of an input, the kernels of a program give what the program's filters, splitters and joiners give.
pub fn kernels_mean()
    ensures filters { FedFilters }
    ensures splitters { FedSplitters }
    ensures joiners { FedJoiners }
{}

/// A joiner collects the longest front of its output for which all items are there.
pub fn collects_longest()
    ensures { CollectsLongest }
{}

/// The filter that is read of a filter as it is written gives what that gives.
pub fn filters_mean()
    ensures { FiltersMean }
{}

/// What solves the equations of a stream's operators has the stream's outputs.
pub fn solutions_mean()
    ensures { SolutionsMean }
{}

/// The plan of a stream is valid.
pub fn plans_are_valid()
    ensures { PlansAreValid }
{}

/// Its queues and variables are declared in the order in which the operators first use them.
pub fn plans_in_turn()
    ensures { PlansInTurn }
{}

/// It means what the stream means.
pub fn translation_means()
    ensures { TranslationMeans }
{}

/// The plan of a program that is accepted is valid, and means what the program means.
pub fn programs_mean()
    ensures { ProgramsMean }
{}

/// A program is refused with the fault of the first place that has one, in that place's unit, and accepted where none has one.
pub fn refusals_are()
    ensures refused { RefusalsAre }
    ensures accepted { AcceptedAre }
{}
