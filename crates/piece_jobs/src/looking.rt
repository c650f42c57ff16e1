// What came of the jobs.
ghost use Rattle.std.specs.Prelude.{◌≡◌, ◌≤◌, ◌+◌, length, IfOk, IfErr};
ghost use Rattle.river_outside.specs.Causes.{Rose};
ghost use Rattle.piece_files.specs.Held.{IfHeld};
ghost use Rattle.piece_jobs.specs.Fetched.{WhyUnseen};
ghost use Rattle.piece_jobs.specs.Looked.{IsCame, AreCame};

use crate::{Ending, ended};
use piece_files::JobFiles;
use piece_work::WorkFault;
use river_base::Listed;
use std::alloc::Global;

/// That a job came whole.
#[derive(Clone, Copy, Debug, PartialEq, Eq)]
pub struct Came {
    /// In which try, from 1.
    pub turn: u32,
    /// How it ended.
    pub ending: Ending,
}

/// Of each job, from 1, whether it came whole in one of the tries up to this one.
#[tactic(auto, using(crate::proofs::Loops::tries))]
pub fn look<J: JobFiles>(
    alloc: Global,
    files: &mut J,
    jobs: u32,
    turns: u32,
) -> Result<Listed<Option<Came>>, WorkFault>
    ensures stays { J.held files.new ≡ J.held files.old }
    ensures later { J.faults files.old ≤ J.faults files.new }
    ensures all { IfOk result (λ found. length found ≡ jobs) }
    ensures came { IfOk result (λ found. IfHeld (J.held files.old) (λ h. AreCame h turns 1 found)) }
    ensures refused { IfErr result (WhyUnseen (Rose J.stays_at_last (J.faults files.old) (J.faults files.new))) }
{
    let mut found = Listed::new(alloc);
    for job in 0..jobs {
        found.push(try_that_came(alloc, files, u64::from(job) + 1, turns)?)?;
    }
    Ok(found)
}

// Whether a job came whole: the first of the tries in which it did.
#[tactic(auto, using(crate::proofs::Loops::tries))]
fn try_that_came<J: JobFiles>(
    alloc: Global,
    files: &mut J,
    job: u64,
    turns: u32,
) -> Result<Option<Came>, WorkFault>
    ensures stays { J.held files.new ≡ J.held files.old }
    ensures later { J.faults files.old ≤ J.faults files.new }
    ensures came { IfOk result (λ found. IfHeld (J.held files.old) (λ h. IsCame h turns job found)) }
    ensures refused { IfErr result (WhyUnseen (Rose J.stays_at_last (J.faults files.old) (J.faults files.new))) }
{
    for before in 0..turns {
        let turn = before + 1;
        if let Some(ending) = ended(alloc, files, job, turn)? {
            return Ok(Some(Came { turn, ending }));
        }
    }
    Ok(None)
}
