// A shelf of named files.
ghost use Rattle.std.specs.Prelude.{◌≡◌, ◌≤◌, ◌<◌, ℕ, Bool, length, Option, IfSome, IfOk, MatchOption, IsErrOf, None};
ghost use Rattle.river_outside.specs.Causes.{Rose};
ghost use Rattle.river_outside.specs.Held.{Held, ReadsHeld, EndsBy};

/// Why a read gave nothing.
#[derive(Clone, Copy, Debug, PartialEq, Eq)]
pub enum ReadFault {
    /// There is no such name.
    Absent,
    /// The device failed.
    Failed,
}

/// Named files that are read in pieces. What they hold may be told to contracts, and no read changes it;
/// a count of faults, which never falls, tells contracts when a read failed.
pub trait Shelf {
    /// The bytes that are held under each name, where the shelf tells them.
    ghost held: { Self → Option Held };

    /// How often the shelf has failed.
    ghost faults: { Self → ℕ };

    /// Whether that count stays at 2^64 - 1 once it is there, so that a fault beyond that is not counted.
    ghost stays_at_last: { Bool };

    /// Reads bytes of a name from a place on to the front of `into`, and says how many; none only where `into` is
    /// empty or the place is at or past the end. Over a shelf that tells what it holds, `Absent` comes only where
    /// the name is not held, and such a name gets no other answer but `Failed`.
    fn read(&mut self, name: &[u8], at: u64, into: &mut [u8]) -> Result<usize, ReadFault>
        // What is held stays, and the count never falls.
        ensures stays { held self.new ≡ held self.old }
        ensures later { faults self.old ≤ faults self.new }

        ensures bound { IfOk result (λ n. n ≤ length into.new) }
        ensures bytes { IfOk result (λ n. IfSome (held self.old) (λ h. ReadsHeld (h name.now) at n into.new)) }
        ensures end { IfOk result (λ n. n ≡ 0 → 0 < length into.new
            → IfSome (held self.old) (λ h. EndsBy (h name.now) at)) }

        ensures failed { IsErrOf result ReadFault.Failed → Rose stays_at_last (faults self.old) (faults self.new) }
        ensures absent { IsErrOf result ReadFault.Absent
            → MatchOption (held self.old) (Rose stays_at_last (faults self.old) (faults self.new)) (λ h. h name.now ≡ None) }

        // Over a shelf that tells what it holds, only `Failed` counts.
        ensures honest { IfSome (held self.old) (λ h. (IsErrOf result ReadFault.Failed → ⊥)
            → faults self.new ≡ faults self.old) };
}
