//! Laws of firings: each is the definition's from whatever states, they chain, and their order is free. And laws of bounded moves, by
//! which operators send to queues of any capacities and take from them.
ghost use Rattle.brooklet_model.specs.Laws.{FusedRuns, OrderIsFree, HistoriesSolve, OneSolution, RunsAgree, HistoriesAreTyped};
ghost use Rattle.brooklet_model.specs.NetLaws.{NamedRuns, RunsAreFronts, WordsAreFronts, MovesAreFew, RoundsAreFew, DoneIsWhole};
ghost use Rattle.brooklet_model.specs.NetLaws.{SomeMove, MovesAreSteps, NetsAreKept};
ghost use Rattle.brooklet_step.specs.Laws.{FiringsChain, FitStatesStand, FiringsStep, EnabledIsItem};
ghost use Rattle.brooklet_step.specs.Laws.{PlainQueuesHoldTyped, RelationsHoldChanges, TypedIsHeld};
ghost use Rattle.brooklet_step.specs.Worked.{SlotsAreGiven};

/// Over any firings, a fused kernel gives what its two parts give.
pub fn fused_runs()
    ensures { FusedRuns }
{}

/// In whatever order the items of its ports come to a kernel, it gives what it gives where its ports are fed one after another.
pub fn order_is_free()
    ensures { OrderIsFree }
{}

/// The histories of a valid plan solve the equations of its operators.
pub fn histories_solve()
    ensures { HistoriesSolve }
{}

/// Nothing else solves the equations of a valid plan's operators.
pub fn one_solution()
    ensures { OneSolution }
{}

/// Every complete run of a valid plan has its histories, adds the same bags to its tables, which are printed with the same rows,
/// and fires each operator as often.
pub fn runs_agree()
    ensures { RunsAgree }
{}

/// In a valid plan, on inputs of their types, all items of all histories are of their queues' types.
pub fn histories_are_typed()
    ensures { HistoriesAreTyped }
{}

/// A kernel that fired can fire again: what a firing promises is what the next one asks, for any item of the same types.
pub fn firings_chain()
    ensures { FiringsChain }
{}

/// Where no relation passes, all states that fit a kernel stand for some of the definition.
pub fn fit_states_stand()
    ensures { FitStatesStand }
{}

/// Whatever states of the definition the code's stand for, a firing gives what the definition gives
/// from these, and leads to its next states; where no relation passes, the new states stand for
/// these as a start of their own.
pub fn firings_step()
    ensures { FiringsStep }
{}

/// A worked row: `code(1, 1) (1) (5) { push 0 (slot[0]); }` gives what its slot has, also where no firing leads to that.
pub fn slots_are_given()
    ensures { SlotsAreGiven }
{}

/// What `Machine::enabled` answers of a machine that is not stopped is whether the definition's state has an item there.
pub fn enabled_is_item()
    ensures { EnabledIsItem }
{}

/// A queue of no relation may hold an item exactly where the item is of the queue's type.
pub fn plain_queues_hold_typed()
    ensures { PlainQueuesHoldTyped }
{}

/// A queue of a relation may hold changes alone: of rows as wide as the relation's, both parts in
/// ascending order, and no row in both. A queue of packs of a relation may hold packs of such.
pub fn relations_hold_changes()
    ensures { RelationsHoldChanges }
{}

/// What a queue holds for items of its type is what it may hold.
pub fn typed_is_held()
    ensures { TypedIsHeld }
{}

/// Where what each operator received is the front of what was given there, the run that fires operator by operator, each at the ports at
/// which it took, is a run; it reaches the histories and states that the operators have.
pub fn named_runs()
    ensures { NamedRuns }
{}

/// The histories of a run that stopped early are fronts of the defined ones.
pub fn runs_are_fronts()
    ensures { RunsAreFronts }
{}

/// So are the histories of what operators received.
pub fn words_are_fronts()
    ensures { WordsAreFronts }
{}

/// There are at most twice as many moves, takes and sends, as items in the defined histories.
pub fn moves_are_few()
    ensures { MovesAreFew }
{}

/// Where each round of moves moves something or is the last, there are at most one more rounds than twice the items in the defined
/// histories, whatever the capacities.
pub fn rounds_are_few()
    ensures { RoundsAreFew }
{}

/// Where each operator received all that was given, histories, rows of tables and firings are as defined.
pub fn done_is_whole()
    ensures { DoneIsWhole }
{}

/// While an operator has a pending or an untaken item, some move is there, for all capacities from 1: one of the last such operator.
pub fn some_move()
    ensures { SomeMove }
{}

/// Bounded moves are moves of the machine: a send is none, a take is a firing; and they keep the capacities.
pub fn moves_are_steps()
    ensures { MovesAreSteps }
{}

/// What a net keeps holds at the beginning and stays through each move; the named run leads to its state, and where no operator has a
/// pending or an untaken item, each received all.
pub fn nets_are_kept()
    ensures { NetsAreKept }
{}
