// How far the work is.
ghost use Rattle.std.specs.Prelude.{◌≡◌, ◌<◌, ◌^◌, Bool, pos, [], ◌∷◌, OnOk, IfOk, IfErr, IfSome, IfNone};
ghost use Rattle.piece_jobs.specs.declared.progress.Progress.{Progress};
ghost use Rattle.piece_jobs.specs.Progress.{HasCounts, flag, progress_row, progress_text, SaysProgress, WhyNoProgress};

use csv_streams::{InFault, print_values, read_even};
use kern_rows::EvenRows;
use piece_work::WorkFault;
use river_base::{Bytes, NoMemory};
use std::alloc::Global;

/// How far the work in a folder is.
#[derive(Clone, Copy, Debug, PartialEq, Eq)]
pub struct Progress {
    /// How many jobs there are.
    pub jobs: u32,
    /// Whether the file that was cut begins with a header.
    pub header: bool,
    /// Which try of the jobs is under way, from 1.
    pub turn: u32,
    /// Whether something is kept of an earlier call.
    pub kept: bool,
    /// How many records are kept, with the header.
    pub before: u64,
}

impl Progress {
    /// The text that says so: a line of five numbers; the last is below 2^63, else there is no memory.
    pub fn text(self, alloc: Global) -> Result<Bytes, NoMemory>
        ensures text { IfOk result (λ text. text ≡ progress_text self) }
        ensures few { OnOk result (self.before < 2 ^ 63) }
    {
        let mut text = Bytes::new(alloc);
        let values = [
            i64::from(self.jobs),
            number_of(self.header),
            i64::from(self.turn),
            number_of(self.kept),
            count_of(self.before)?,
        ];
        print_values(&values, &mut text)?;
        Ok(text)
    }

    /// What a text says; `Other` where it says no progress.
    pub fn read(alloc: Global, text: &Bytes) -> Result<Progress, WorkFault>
        ensures says { IfOk result (SaysProgress text.now) }
        ensures refused { IfErr result (WhyNoProgress text.now) }
    {
        match read_even(alloc, text, 5, false, false) {
            Ok(rows) => match progress_in(&rows) {
                Some(progress) => Ok(progress),
                None => Err(WorkFault::Other),
            },
            Err(InFault::NoMemory) => Err(WorkFault::NoMemory),
            Err(_) => Err(WorkFault::Other),
        }
    }
}

// What the rows say, if they are one row that says it.
#[tactic(auto, using(crate::proofs::Loops::rows))]
fn progress_in(rows: &EvenRows) -> Option<Progress>
    ensures some { IfSome result (λ p. rows.now ≡ progress_row p ∷ []) }
    ensures none { IfNone result ((p : Progress) → HasCounts p → rows.now ≡ progress_row p ∷ [] → ⊥) }
{
    if rows.len() != 1 {
        return None;
    }
    of_row(rows.at(0))
}

// What a row says.
fn of_row(values: &[i64]) -> Option<Progress>
    ensures some { IfSome result (λ p. values.now ≡ progress_row p) }
    ensures none { IfNone result ((p : Progress) → HasCounts p → values.now ≡ progress_row p → ⊥) }
{
    if values.len() != 5 {
        return None;
    }
    let jobs = u32::try_from(values[0]).ok()?;
    let header = flag_of(values[1])?;
    let turn = u32::try_from(values[2]).ok()?;
    let kept = flag_of(values[3])?;
    let before = u64::try_from(values[4]).ok()?;
    Some(Progress {
        jobs,
        header,
        turn,
        kept,
        before,
    })
}

// A count as a number; one above 2^63 - 1 has no memory.
fn count_of(count: u64) -> Result<i64, NoMemory>
    ensures is { IfOk result (λ n. n ≡ pos count) }
    ensures few { OnOk result (count < 2 ^ 63) }
{
    match i64::try_from(count) {
        Ok(n) => Ok(n),
        Err(_) => Err(NoMemory),
    }
}

// 1 for yes, 0 for no.
fn number_of(yes: bool) -> i64
    ensures { result ≡ flag yes }
{
    if yes { 1 } else { 0 }
}

// Whether a number is 1; no answer where it is neither 0 nor 1.
fn flag_of(value: i64) -> Option<bool>
    ensures some { IfSome result (λ b. value ≡ flag b) }
    ensures none { IfNone result ((b : Bool) → value ≡ flag b → ⊥) }
{
    match value {
        0 => Some(false),
        1 => Some(true),
        _ => None,
    }
}
