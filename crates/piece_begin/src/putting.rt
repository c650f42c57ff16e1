// The files of jobs that are to be run.
ghost use Rattle.std.specs.Prelude.{◌≡◌, ◌≤◌, ◌<◌, ◌^◌, OnOk, IfErr};
ghost use Rattle.river_outside.specs.Causes.{Rose};
ghost use Rattle.piece_files.specs.Held.{Put};
ghost use Rattle.piece_files.specs.declared.file.JobFile.TheVariants as the_file;
ghost use Rattle.piece_jobs.specs.Jobs.{list_text, numbers_from};
ghost use Rattle.piece_jobs.specs.Progress.{progress_text};
ghost use Rattle.piece_begin.specs.Faults.{WhyUnput};
ghost use Rattle.piece_begin.specs.Laid.{Laid, WordsLaid};

use piece_files::{JobFile, JobFiles};
use piece_jobs::{Progress, list_of_all, words_of_job};
use piece_work::WorkFault;
use std::alloc::Global;

/// Puts the text of the program, the words of the jobs, how far the work is, and the list of all jobs in their first try.
pub(crate) fn put_files<J: JobFiles>(
    alloc: Global,
    files: &mut J,
    text: &[u8],
    progress: Progress,
) -> Result<(), WorkFault>
    ensures later { J.faults files.old ≤ J.faults files.new }
    ensures laid { OnOk result (Laid text.now progress (J.held files.old) (J.held files.new)) }
    ensures few { OnOk result (progress.before < 2 ^ 63) }
    ensures refused { IfErr result (WhyUnput (Rose J.stays_at_last (J.faults files.old) (J.faults files.new))) }
{
    files.put(JobFile::Program, text)?;
    put_words(alloc, files, progress.header, progress.jobs)?;
    put_state(alloc, files, progress)?;
    put_list(alloc, files, progress.jobs)
}

/// So many jobs in their first try; the first may begin with a header, and something may be kept, of so many records.
pub(crate) fn first_try(jobs: u32, header: bool, kept: bool, before: u64) -> Progress
    ensures { result ≡ record { jobs = jobs; header = header; turn = 1; kept = kept; before = before } }
{
    Progress {
        jobs,
        header,
        turn: 1,
        kept,
        before,
    }
}

// Puts the words of each job.
fn put_words<J: JobFiles>(
    alloc: Global,
    files: &mut J,
    header: bool,
    jobs: u32,
) -> Result<(), WorkFault>
    ensures later { J.faults files.old ≤ J.faults files.new }
    ensures laid { OnOk result (WordsLaid header jobs (J.held files.old) (J.held files.new)) }
    ensures refused { IfErr result (WhyUnput (Rose J.stays_at_last (J.faults files.old) (J.faults files.new))) }
{
    for before in 0..jobs {
        let job = u64::from(before) + 1;
        let words = words_of_job(alloc, header, job)?;
        files.put(JobFile::Words { job }, words.as_slice())?;
    }
    Ok(())
}

// Puts the state.
fn put_state<J: JobFiles>(alloc: Global, files: &mut J, progress: Progress) -> Result<(), WorkFault>
    ensures later { J.faults files.old ≤ J.faults files.new }
    ensures put { OnOk result (Put the_file.State (progress_text progress) (J.held files.old) (J.held files.new)) }
    ensures few { OnOk result (progress.before < 2 ^ 63) }
    ensures refused { IfErr result (WhyUnput (Rose J.stays_at_last (J.faults files.old) (J.faults files.new))) }
{
    let text = progress.text(alloc)?;
    files.put(JobFile::State, text.as_slice())?;
    Ok(())
}

// Puts the list of all jobs.
fn put_list<J: JobFiles>(alloc: Global, files: &mut J, jobs: u32) -> Result<(), WorkFault>
    ensures later { J.faults files.old ≤ J.faults files.new }
    ensures put { OnOk result (Put the_file.List (list_text 1 (numbers_from 1 jobs)) (J.held files.old) (J.held files.new)) }
    ensures refused { IfErr result (WhyUnput (Rose J.stays_at_last (J.faults files.old) (J.faults files.new))) }
{
    let text = list_of_all(alloc, jobs)?;
    files.put(JobFile::List, text.as_slice())?;
    Ok(())
}
