//! Laws over the definitions alone.
ghost use Rattle.streamit_text.specs.Laws.{OneProgram, NamesAreNames, ExpressionsAreExact};

/// A text stands for one program at most.
#[tactic(auto, using(crate::proofs::Texts::one_program))]
pub fn one_program()
    ensures { OneProgram }
{}

/// A name of a text that users may give begins with a letter or `_`.
#[tactic(auto, using(crate::proofs::Named::names_are_names))]
pub fn names_are_names()
    ensures { NamesAreNames }
{}

/// The reader of expressions is exact, for each number of brackets that may be open: what it reads is
/// an expression by the grammar with this tree, and an expression is read with its tree wherever no
/// operator follows.
pub fn expressions_are_exact()
    ensures { ExpressionsAreExact }
{}
