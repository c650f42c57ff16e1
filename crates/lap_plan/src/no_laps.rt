// Why a program did not begin to be run in pieces that overlap.
use piece_work::WorkFault;
use rate_code::cause::NoRate;

/// Why it did not begin.
#[derive(Clone, Copy)]
pub enum NoLaps {
    /// A step was not done.
    Work(WorkFault),
    /// The program has no period.
    Rate(NoRate),
    /// Its periods give nothing, but its first firings do.
    Finite,
    /// A piece would have more records than it may have.
    Long,
}

impl From<WorkFault> for NoLaps {
    ghost use Rattle.std.specs.Prelude.{◌≡◌};
    ghost use Rattle.lap_plan.specs.declared.no_laps.NoLaps.TheVariants as why;

    ghost from_gives = { λ f e. e ≡ why.Work f };

    fn from(fault: WorkFault) -> Self {
        NoLaps::Work(fault)
    }
}
