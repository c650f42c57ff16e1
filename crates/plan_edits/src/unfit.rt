// Why a rewrite is refused.
ghost use Rattle.std.specs.Prelude.{◌≡◌};
ghost use Rattle.plan_edits.specs.Words.{unfit_word};

use river_base::NoMemory;

/// The condition of a rewrite that fails first, or want of memory.
#[derive(Clone, Copy)]
pub enum Unfit {
    /// Fusion: no queue has the name.
    U1,
    /// The queue is not written by one operator and read by another.
    U2,
    /// The reader has other inputs.
    U3,
    /// The result nests too deeply, or has too many output ports.
    U4,
    /// The two operators have a variable in common.
    U5,
    /// Hoisting: no operator of the label selects.
    H1,
    /// Its input is not the only output of an operator.
    H2,
    /// A selection does not pass that operator.
    H3,
    /// The condition does not pass that operator.
    H4,
    /// Fission: no operator has the label.
    N1,
    /// The number is not 2 to 16.
    N2,
    /// The operator has not one input.
    N3,
    /// The operator has none of the three forms.
    N4,
    /// The result exceeds a limit, or a made name is too long or the name of another.
    N5,
    /// There was no memory.
    NoMemory,
}

impl From<NoMemory> for Unfit {
    ghost use Rattle.std.specs.Prelude.{◌≡◌};
    ghost use Rattle.plan_edits.specs.declared.unfit.Unfit.TheVariants as unfit;

    ghost from_gives = { λ _ f. f ≡ unfit.NoMemory };

    fn from(_: NoMemory) -> Self {
        Unfit::NoMemory
    }
}

impl Unfit {
    /// Its name.
    pub fn word(self) -> &'static [u8]
        ensures { result.now ≡ unfit_word self }
    {
        match self {
            Unfit::U1 => b"U1",
            Unfit::U2 => b"U2",
            Unfit::U3 => b"U3",
            Unfit::U4 => b"U4",
            Unfit::U5 => b"U5",
            Unfit::H1 => b"H1",
            Unfit::H2 => b"H2",
            Unfit::H3 => b"H3",
            Unfit::H4 => b"H4",
            Unfit::N1 => b"N1",
            Unfit::N2 => b"N2",
            Unfit::N3 => b"N3",
            Unfit::N4 => b"N4",
            Unfit::N5 => b"N5",
            Unfit::NoMemory => b"NoMemory",
        }
    }
}
