// What the check of a plan may find.

use river_base::{Name, NoMemory};
use river_kernels::Limit;

/// A name at fault, with what it is the name of.
#[derive(Clone, Copy)]
pub enum Named {
    Queue(Name),
    Variable(Name),
    Label(Name),
}

/// Why lists are no valid plan.
#[derive(Clone, Copy)]
pub enum PlanFault {
    /// Two queues, two variables or two labels have this name.
    P1(Named),
    /// An operator names this, which is not declared.
    P2(Named),
    /// This queue is written twice, or is an input and written.
    P3(Named),
    /// This queue is read twice, or is an output and read.
    P4(Named),
    /// An operator reads this queue, which is no input and is not written by an operator before.
    P5(Named),
    /// This queue or table has a width that is not 1 to 16, or is an input or output of a type that none may have, or
    /// is a table with more than 8 keys or that keeps no row.
    P6(Named),
    /// The kernel of the operator of this label does not fit its queues and variables, or is badly formed.
    P7(Named),
    /// This number is above its limit; 2^128 - 1 stands for what is greater.
    P8 { limit: Limit, number: u128 },
    /// This variable is private and stands twice, or stands twice in one operator.
    P9(Named),
    /// There was no memory for the check.
    NoMemory,
}

impl From<NoMemory> for PlanFault {
    ghost use Rattle.std.specs.Prelude.{◌≡◌};
    ghost use Rattle.river_plan.specs.declared.fault.PlanFault.TheVariants as fault;

    ghost from_gives = { λ _ f. f ≡ fault.NoMemory };

    fn from(_: NoMemory) -> Self {
        PlanFault::NoMemory
    }
}
