// The files of a work folder, as a trait.
ghost use Rattle.std.specs.Prelude.{◌≡◌, ◌≤◌, ℕ, Bool, List, Option, IfOk, OnOk, OnErr, IsErrOf, MatchOption, None, length};
ghost use Rattle.river_outside.specs.Causes.{Rose};
ghost use Rattle.river_outside.specs.Fetched.{FetchesAll, IsLarger};
ghost use Rattle.piece_files.specs.declared.file.JobFile as job_file;
ghost use Rattle.piece_files.specs.Held.{HeldFiles, Put, MaybePut, IfHeld};

use crate::JobFile;
use river_base::Bytes;
use river_outside::{Failed, FetchFault};
use std::alloc::Global;

/// The files of a work folder. What they hold may be told to contracts: no fetch changes it, and a file that is put changes no
/// other one. A count of faults, which never falls, tells contracts when a fetch or a put failed.
pub trait JobFiles {
    /// The bytes of each file, where they are told.
    ghost held: { Self → Option HeldFiles };

    /// How often it has failed.
    ghost faults: { Self → ℕ };

    /// Whether that count stays at 2^64 - 1 once it is there, so that a fault beyond that is not counted.
    ghost stays_at_last: { Bool };

    /// All bytes of a file, if they are at most `limit`.
    fn fetch(&mut self, alloc: Global, file: JobFile, limit: u64) -> Result<Bytes, FetchFault>
        ensures stays { held self.new ≡ held self.old }
        ensures later { faults self.old ≤ faults self.new }

        ensures bytes { IfOk result (λ got. IfHeld (held self.old) (λ h. FetchesAll (h file) limit got)) }
        ensures within { IfOk result (λ got. length got ≤ limit) }
        ensures failed { IsErrOf result FetchFault.Failed → Rose stays_at_last (faults self.old) (faults self.new) }
        ensures large { IsErrOf result FetchFault.Large → IfHeld (held self.old) (λ h. IsLarger (h file) limit) }
        ensures absent { IsErrOf result FetchFault.Absent
            → MatchOption (held self.old) (Rose stays_at_last (faults self.old) (faults self.new)) (λ h. h file ≡ None) };

    /// Writes a file, in place of one that was there. Where it fails, no other file is changed.
    fn put(&mut self, file: JobFile, bytes: &[u8]) -> Result<(), Failed>
        ensures later { faults self.old ≤ faults self.new }
        ensures put { OnOk result (Put file bytes.now (held self.old) (held self.new)) }
        ensures others { OnErr result (MaybePut file (held self.old) (held self.new)) }
        ensures failed { OnErr result (Rose stays_at_last (faults self.old) (faults self.new)) };
}
