// A sink of bytes.
ghost use Rattle.std.specs.Prelude.{◌≡◌, ◌≤◌, ◌<◌, List, ℕ, Bool, length, take, Option, IfOk, OnErr};
ghost use Rattle.std.specs.Io.KnownBytes.{append_known};
ghost use Rattle.river_outside.specs.Causes.{Rose};

/// A device failed.
#[derive(Clone, Copy, PartialEq, Eq)]
pub struct Failed;

/// What takes bytes. What it took may be told to contracts; a count of faults, which never falls, tells them
/// when a write failed.
pub trait Sink {
    /// The bytes taken, where the sink tells them.
    ghost taken: { Self → Option (List ℕ) };

    /// How often the sink has failed.
    ghost faults: { Self → ℕ };

    /// Whether that count stays at 2^64 - 1 once it is there, so that a fault beyond that is not counted.
    ghost stays_at_last: { Bool };

    /// Takes bytes from the front, and says how many: at least one where there are bytes. A write that fails takes
    /// nothing.
    fn write(&mut self, bytes: &[u8]) -> Result<usize, Failed>
        ensures later { faults self.old ≤ faults self.new }
        ensures bound { IfOk result (λ n. n ≤ length bytes.now) }
        ensures moves { IfOk result (λ n. 0 < length bytes.now → 0 < n) }
        ensures took { IfOk result (λ n. taken self.new ≡ append_known (taken self.old) (take n bytes.now)) }
        ensures nothing { OnErr result (taken self.new ≡ taken self.old) }
        ensures failed { OnErr result (Rose stays_at_last (faults self.old) (faults self.new)) };
}
