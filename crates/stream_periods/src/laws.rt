//! Laws over the definitions alone.
ghost use Rattle.stream_periods.specs.Laws.{FiltersMove, SplittersMove, JoinersMove, FiltersSettle, SplittersSettle, JoinersSettle, BesideIsBalance};
ghost use Rattle.stream_periods.specs.Texts.{PrintedValues, TextsInPieces};
ghost use Rattle.stream_periods.specs.Walk.{PlansSettle, PlanPiecesGiveTheWhole};

/// A filter without memory gives for what is behind a period what it gives behind the period.
pub fn filters_move()
    ensures { FiltersMove }
{}

/// So does a splitter, of each branch, for whole cycles.
pub fn splitters_move()
    ensures { SplittersMove }
{}

/// And a joiner, where the branches have their items of the cycles.
pub fn joiners_move()
    ensures { JoinersMove }
{}

/// A filter that has a period settles behind what its first firing gives.
pub fn filters_settle()
    ensures { FiltersSettle }
{}

/// So does each branch of a splitter.
pub fn splitters_settle()
    ensures { SplittersSettle }
{}

/// What a joiner collects of lists that are cycles behind is as many cycles behind.
pub fn joiners_settle()
    ensures { JoinersSettle }
{}

/// Two branches keep step exactly where their rates balance.
pub fn beside_is_balance()
    ensures { BesideIsBalance }
{}

/// A run prints of an output of single values a line for each.
pub fn printed_values_are()
    ensures { PrintedValues }
{}

/// Texts of pieces, put together by lines, are the text of what the pieces give, put together.
pub fn texts_in_pieces()
    ensures { TextsInPieces }
{}

/// What is reckoned of a queue of a plan holds of its history.
pub fn plans_settle()
    ensures { PlansSettle }
{}

/// So pieces of the input give the whole.
pub fn plan_pieces_give_the_whole()
    ensures { PlanPiecesGiveTheWhole }
{}
