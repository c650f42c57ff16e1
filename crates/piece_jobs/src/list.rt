// The list of the jobs that are to be run.
ghost use Rattle.std.specs.Prelude.{◌≡◌, ◌++◌, IfOk, OnOk};
ghost use Rattle.piece_jobs.specs.Jobs.{list_line, list_text, lacking, numbers_from, words_text};

use crate::Came;
use river_base::{Bytes, NoMemory};
use std::alloc::Global;

/// The list of all jobs, in their first try: a line `JOB,1` for each.
#[tactic(auto, using(crate::proofs::Loops::lists))]
pub fn list_of_all(alloc: Global, jobs: u32) -> Result<Bytes, NoMemory>
    ensures { IfOk result (λ text. text ≡ list_text 1 (numbers_from 1 jobs)) }
{
    let mut text = Bytes::new(alloc);
    for job in 0..jobs {
        add_line(u64::from(job) + 1, 1, &mut text)?;
    }
    Ok(text)
}

/// The list of the jobs that have not come, in this try: a line `JOB,TRY` for each.
pub(crate) fn list_of_lacking(
    alloc: Global,
    found: &[Option<Came>],
    turn: u32,
) -> Result<Bytes, NoMemory>
    ensures { IfOk result (λ text. text ≡ list_text turn (lacking 1 found.now)) }
{
    let mut text = Bytes::new(alloc);
    for place in 0..found.len() {
        if found[place].is_none() {
            add_line(place as u64 + 1, turn, &mut text)?;
        }
    }
    Ok(text)
}

// Appends the line of a job.
fn add_line(job: u64, turn: u32, to: &mut Bytes) -> Result<(), NoMemory>
    ensures { OnOk result (to.new ≡ to.old ++ list_line turn job) }
{
    to.put_number(job)?;
    to.push(b',')?;
    to.put_number(turn)?;
    to.push(b'\n')
}

/// The words of a job behind `run`, in a line.
pub fn words_of_job(alloc: Global, header: bool, job: u64) -> Result<Bytes, NoMemory>
    ensures { IfOk result (λ text. text ≡ words_text header job) }
{
    let mut text = Bytes::from_slice(alloc, b"sawzall program in=in.")?;
    text.put_number(job)?;
    let end: &[u8] = if header && job == 1 { b" -H\n" } else { b"\n" };
    text.extend(end)?;
    Ok(text)
}
