//! Laws over the definitions alone.
ghost use Rattle.cql_model.specs.Plannable.{PlansAreValid, PlansKeep, OnlyLimits};
ghost use Rattle.cql_model.specs.Judged.{FaultlessPlannable};
ghost use Rattle.cql_model.specs.Fit.{FilesFit};
ghost use Rattle.cql_model.specs.Instants.{InstantsAre, MeansAtInstants, PlansMean};
ghost use Rattle.cql_model.specs.InTurn.{PlansInTurn};
ghost use Rattle.cql_model.specs.Faults.{RefusalsAre, AcceptedAre, AcceptedPlannable, AcceptedAreValid, AcceptedMean};
ghost use Rattle.cql_model.specs.Kernels.{WindowsAre, SelectsAre, ProjectsAre, StreamersAre, CrossesAre};

/// Fed with batches, the kernels on bags give one after another what CQL's operators give: the window's content after each batch,
/// the rows that pass, the values of the columns, what came or went since the batch before, and the products of the batches at
/// the same places of two lists.
pub fn kernels_mean()
    ensures windows { WindowsAre }
    ensures selections { SelectsAre }
    ensures projections { ProjectsAre }
    ensures streamers { StreamersAre }
    ensures products { CrossesAre }
{}

/// The instants of a run rise, and are exactly the timestamps of its files: a time is an instant where a file has a row with it. What
/// a program means has a batch at each of them, for each of its queries.
pub fn instants_are_stamps()
    ensures instants { InstantsAre }
    ensures means { MeansAtInstants }
{}

/// A program is refused exactly where the first place in the order of reading that has a fault has this one, and stands in this
/// unit; or where no place has one, but the plan exceeds a limit of plans, which is told at the last unit. It is accepted exactly
/// where no place has a fault and the plan keeps the limits.
pub fn first_faults_are_told()
    ensures refused { RefusalsAre }
    ensures accepted { AcceptedAre }
{}

/// Of a program that the grammar gives and that is accepted a plan can be made; and so of one in which no unit has a fault.
pub fn accepted_are_plannable()
    ensures accepted { AcceptedPlannable }
    ensures faultless { FaultlessPlannable }
{}

/// Where a plan can be made, it keeps the rules of plans, whatever its size, and so is valid where it keeps their limits. A fault is
/// told of it exactly where it exceeds a limit, and this is the fault.
pub fn plans_are_valid()
    ensures valid { PlansAreValid }
    ensures rules { PlansKeep }
    ensures faults { OnlyLimits }
{}

/// The queues and variables of a plan stand in the order in which its operators first name them.
pub fn plans_in_turn()
    ensures { PlansInTurn }
{}

/// Files whose rows have the widths of a program's streams fit its plan: they are of the types of its inputs, and all have the same
/// instants, which are those of the run.
pub fn files_fit()
    ensures { FilesFit }
{}

/// A plan that can be made and keeps the limits of plans means what the program means.
pub fn plans_mean()
    ensures { PlansMean }
{}

/// The plan of an accepted program is valid, and means what the program means.
pub fn accepted_mean()
    ensures valid { AcceptedAreValid }
    ensures means { AcceptedMean }
{}
