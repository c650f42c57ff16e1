// Pieces that become the records of jobs.
ghost use Rattle.std.specs.Prelude.{◌≡◌, ◌+◌, ◌-◌, ◌^◌, ◌<◌, ◌≤◌, ◌∷◌, [], ◌⊎◌, true, IfOk, OnOk, OnErr};
ghost use Rattle.csv_cuts.specs.Cut.{append_pieces};
ghost use Rattle.river_outside.specs.Causes.{Rose, last};
ghost use Rattle.piece_files.specs.Counts.{with_more};
ghost use Rattle.piece_files.specs.Inputs.{inputs_told, OnlyInputs};

use crate::count::one_more;
use crate::{JobFile, JobFiles};
use csv_cuts::PieceSink;
use river_outside::Failed;

/// Files to which pieces come as the records of jobs: the first as those of job 1, and so on.
#[derive(Drop)]
pub struct Inputs<J> {
    /// The files of the work folder.
    pub files: J,
    /// How many pieces were taken.
    pub count: u64,
    /// How often there was no number for a job.
    pub unnumbered: u64,
}

impl<J: JobFiles> Inputs<J> {
    /// No piece was taken yet.
    pub fn new(files: J) -> Self
        ensures files { result.files ≡ files }
        ensures count { result.count ≡ 0 }
        ensures unnumbered { result.unnumbered ≡ 0 }
    {
        Inputs {
            files,
            count: 0,
            unnumbered: 0,
        }
    }
}

impl<J: JobFiles> PieceSink for Inputs<J> {
    // None also where a file of those that were taken holds nothing, which never is.
    ghost taken = { λ s. inputs_told (J.held s.files) s.count };

    // Those of the files, and where there was no number.
    ghost faults = { λ s. with_more (J.faults s.files) s.unnumbered };

    ghost stays_at_last = { true };

    fn take(&mut self, piece: &[u8]) -> Result<(), Failed>
        ensures later { with_more (J.faults self.old.files) self.old.unnumbered ≤ with_more (J.faults self.new.files) self.new.unnumbered }
        ensures took { OnOk result (inputs_told (J.held self.new.files) self.new.count
            ≡ append_pieces (inputs_told (J.held self.old.files) self.old.count) (piece.now ∷ [])) }
        ensures failed { OnErr result (Rose true (with_more (J.faults self.old.files) self.old.unnumbered)
            (with_more (J.faults self.new.files) self.new.unnumbered)) }

        // And what only who knows the files can ask: no file changes but records of jobs.
        ensures only { OnlyInputs (J.held self.old.files) (J.held self.new.files) }
        ensures files_later { J.faults self.old.files ≤ J.faults self.new.files }
        ensures cause { OnErr result ((self.old.count ≡ last) ⊎ Rose J.stays_at_last (J.faults self.old.files) (J.faults self.new.files)) }
        ensures counted { OnOk result (self.new.count ≡ self.old.count + 1) }
        ensures uncounted { OnErr result (self.new.count ≡ self.old.count) }
    {
        if self.count == u64::MAX {
            self.unnumbered = one_more(self.unnumbered);
            return Err(Failed);
        }
        self.count = put_input(&mut self.files, self.count, piece)?;
        Ok(())
    }
}

// Writes the records of the job that comes after so many, and says how many have records now.
fn put_input<J: JobFiles>(files: &mut J, count: u64, piece: &[u8]) -> Result<u64, Failed>
    requires { count < 2 ^ 64 - 1 }
    ensures later { J.faults files.old ≤ J.faults files.new }
    ensures only { OnlyInputs (J.held files.old) (J.held files.new) }
    ensures next { IfOk result (λ n. n ≡ count + 1) }
    ensures took { IfOk result (λ n. inputs_told (J.held files.new) n ≡ append_pieces (inputs_told (J.held files.old) count) (piece.now ∷ [])) }
    ensures failed { OnErr result (Rose J.stays_at_last (J.faults files.old) (J.faults files.new)) }
{
    let job = count + 1;
    files.put(JobFile::Input { job }, piece)?;
    Ok(job)
}
