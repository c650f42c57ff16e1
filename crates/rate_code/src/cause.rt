//! Why nothing is known of a queue.
ghost use Rattle.std.specs.Prelude.{◌≡◌};

use river_base::{Name, NoMemory};

/// Why nothing is known of a queue.
#[derive(Clone, Copy)]
pub enum NoRate {
    /// The operator of this name is no filter, splitter or joiner, or it reads a queue of which nothing is known.
    Lacks(Name),
    /// The filter of this name sets a field.
    Keeps(Name),
    /// The queues that the joiner of this name reads do not keep step.
    Unbalanced(Name),
    /// A number is above 2^64 - 1.
    Large,
    /// There was no memory.
    NoMemory,
}

impl From<NoMemory> for NoRate {
    ghost use Rattle.rate_code.specs.declared.cause.NoRate.TheVariants as why;

    ghost from_gives = { λ _ c. c ≡ why.NoMemory };

    fn from(_fault: NoMemory) -> Self {
        NoRate::NoMemory
    }
}
