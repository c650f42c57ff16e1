//! Laws over the definitions alone.
ghost use Rattle.river_text.specs.Laws.{OnePlan, CapsFit, MeansWhatItHas, ExpressionsAreExact};

/// A text stands for one plan at most, with one list of capacities, and these are 1 to 65,536.
#[tactic(auto, using(crate::proofs::Texts::one_plan, crate::proofs::Capped::caps_fit))]
pub fn one_plan()
    ensures one { OnePlan }
    ensures caps { CapsFit }
{}

/// What is read is the grammar: `plan_in` gives a plan exactly where the text stands for these lists and they are
/// valid, a fault of the bytes exactly where it is the first, a unit exactly where it is the first that is not in the
/// grammar, and a fault of a plan exactly where the text stands for lists of which it is the first.
pub fn means_what_it_has()
    ensures { MeansWhatItHas }
{}

/// The reader of expressions is exact, for each number of brackets that may be open: what it reads is
/// an expression by the grammar with this tree, and an expression is read with its tree wherever no
/// operator follows.
pub fn expressions_are_exact()
    ensures { ExpressionsAreExact }
{}
