//! Laws of lock classes, each the contract of a function that does nothing.
ghost use Rattle.plan_classes.specs.Classes.{ClassesAreUnique};
ghost use Rattle.plan_classes.specs.Numbered.{NumbersAreClasses};

/// No other list numbers the same classes.
#[tactic(auto, using(crate::proofs::Unique::classes_are_unique))]
pub fn classes_are_unique()
    ensures { ClassesAreUnique }
{}

/// Each table has as its class the place of its operators among the lists that came first.
pub fn numbers_are_classes()
    ensures { NumbersAreClasses }
{}
