// Named files that are read and written, as a trait.
ghost use Rattle.std.specs.Prelude.{◌≡◌, ◌≤◌, ℕ, Bool, List, Option, OnOk, OnErr};
ghost use Rattle.river_outside.specs.Causes.{Rose};
ghost use Rattle.piece_files.specs.Held.{Put, MaybePut};

use river_outside::{Failed, Shelf};

/// A shelf whose files are written too. What it holds may be told to contracts: a file that is put changes no other one.
pub trait Store: Shelf {
    /// Writes a file, in place of one that was there. Where it fails, no other file is changed.
    fn put(&mut self, name: &[u8], bytes: &[u8]) -> Result<(), Failed>
        ensures later { Self.faults self.old ≤ Self.faults self.new }
        ensures put { OnOk result (Put name.now bytes.now (Self.held self.old) (Self.held self.new)) }
        ensures others { OnErr result (MaybePut name.now (Self.held self.old) (Self.held self.new)) }
        ensures failed { OnErr result (Rose Self.stays_at_last (Self.faults self.old) (Self.faults self.new)) };
}
