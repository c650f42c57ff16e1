// What a `code` does with a row.
ghost use Rattle.std.specs.Prelude.{◌≡◌, ◌++◌, length, IfOk, OnOk, OnErr};
ghost use Rattle.river_base.specs.Grew.{GrewByPrefix};
ghost use Rattle.kern_rows.specs.Forms.{code_form};
ghost use Rattle.kern_rows.specs.Needs.{CanCode};
ghost use Rattle.kern_rows.specs.Runs.{run_kept as kept_run};

use crate::CodeKernel;
use crate::body::run_kept;
use river_base::{Duplicate, NoMemory, Numbers};
use std::alloc::Global;
use work_code::Emitted;

impl CodeKernel {
    /// The slots that are kept, before the first row.
    pub fn start(&self, alloc: Global) -> Result<Numbers, NoMemory>
        ensures { IfOk result (λ kept. kept ≡ (code_form self.now).starts) }
    {
        self.starts.copy(alloc)
    }

    /// A row of these values comes: appends what the body pushes, and keeps its slots. The body runs on as many
    /// inputs as the row has values. Where there is no memory, a part of the pushes was appended,
    /// and nothing is said of the slots.
    pub fn step(&self, kept: &mut Numbers, row: &[i64], out: &mut Emitted) -> Result<(), NoMemory>
        requires formed { CanCode (code_form self.now) }
        requires kept { length kept.old ≡ length (code_form self.now).starts }
        requires row { length row.now ≡ (code_form self.now).body.inputs }
        ensures pushes { OnOk result (out.new ≡ out.old ++ (kept_run (code_form self.now).body kept.old row.now).pushes) }
        ensures kept { OnOk result (kept.new ≡ (kept_run (code_form self.now).body kept.old row.now).slots) }
        ensures shape { OnOk result (length kept.new ≡ length kept.old) }
        ensures err { OnErr result (GrewByPrefix out.old (kept_run (code_form self.now).body kept.old row.now).pushes out.new) }
    {
        run_kept(&self.code, kept, row, out)?;
        Ok(())
    }
}
