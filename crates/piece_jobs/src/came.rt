// Whether a try of a job came whole.
ghost use Rattle.std.specs.Prelude.{◌≡◌, ◌≤◌, ◌++◌, codes, true, ◌↔◌, ◌∷◌, IfOk, IfErr, OnOk};
ghost use Rattle.river_outside.specs.Causes.{Rose};
ghost use Rattle.piece_files.specs.Held.{IfHeld};
ghost use Rattle.piece_jobs.specs.Came.{sum_text, sums_text, status_text, IsEnding, IsEndingOf};
ghost use Rattle.piece_jobs.specs.Fetched.{WhyUnseen};

use crate::fetched::find_file;
use hex::encode;
use piece_files::{JobFile, JobFiles};
use piece_work::WorkFault;
use river_base::{Bytes, NoMemory};
use sha2::{Digest, Sha256};
use std::alloc::Global;

/// How a try of a job ended that came whole.
#[derive(Clone, Copy, Debug, PartialEq, Eq)]
pub enum Ending {
    /// With status 0.
    Done,
    /// With status 1: it was refused.
    Refused,
}

/// How a try of a job ended, if it came whole: its three files are there, of at most 1 TiB each, and its status file says 0 or 1 and
/// the sums of what it printed and told.
pub fn ended<J: JobFiles>(
    alloc: Global,
    files: &mut J,
    job: u64,
    turn: u32,
) -> Result<Option<Ending>, WorkFault>
    ensures stays { J.held files.new ≡ J.held files.old }
    ensures later { J.faults files.old ≤ J.faults files.new }
    ensures ended { IfOk result (λ found. IfHeld (J.held files.old) (λ h. IsEnding h job turn found)) }
    ensures refused { IfErr result (WhyUnseen (Rose J.stays_at_last (J.faults files.old) (J.faults files.new))) }
{
    let Some(status) = find_file(alloc, files, JobFile::Status { job, turn })? else {
        return Ok(None);
    };
    let Some(out) = find_file(alloc, files, JobFile::Out { job, turn })? else {
        return Ok(None);
    };
    let Some(err) = find_file(alloc, files, JobFile::Err { job, turn })? else {
        return Ok(None);
    };
    Ok(ending_of(alloc, &status, &out, &err)?)
}

// The ending that a status file tells of what was printed and told.
fn ending_of(
    alloc: Global,
    status: &Bytes,
    out: &Bytes,
    err: &Bytes,
) -> Result<Option<Ending>, NoMemory>
    ensures { IfOk result (IsEndingOf status.now out.now err.now) }
{
    let sums = sums_text(alloc, out, err)?;
    if tells(status.as_slice(), b'0', sums.as_slice()) {
        Ok(Some(Ending::Done))
    } else if tells(status.as_slice(), b'1', sums.as_slice()) {
        Ok(Some(Ending::Refused))
    } else {
        Ok(None)
    }
}

// Whether a status file is this digit, and the sums behind it.
fn tells(status: &[u8], digit: u8, sums: &[u8]) -> bool
    ensures { result ≡ true ↔ (status.now ≡ digit ∷ sums.now) }
{
    match status.split_first() {
        Some((first, rest)) => *first == digit && rest == sums,
        None => false,
    }
}

// The sums of what was printed and told, each behind a blank, and the end of the line.
fn sums_text(alloc: Global, out: &Bytes, err: &Bytes) -> Result<Bytes, NoMemory>
    ensures { IfOk result (λ text. text ≡ sums_text out.now err.now) }
{
    let mut text = Bytes::from_slice(alloc, b" ")?;
    add_sum(alloc, out, &mut text)?;
    text.push(b' ')?;
    add_sum(alloc, err, &mut text)?;
    text.push(b'\n')?;
    Ok(text)
}

// Appends the sum of bytes.
fn add_sum(alloc: Global, bytes: &Bytes, to: &mut Bytes) -> Result<(), NoMemory>
    ensures { OnOk result (to.new ≡ to.old ++ sum_text bytes.now) }
{
    let digest = Sha256::digest(bytes.as_slice());
    let sum = encode(alloc, digest.as_slice())?;
    to.extend(sum.as_bytes())
}
