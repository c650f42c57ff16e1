// A program begins to be run on what a file has grown by.
ghost use Rattle.std.specs.Prelude.{◌≡◌, ◌≤◌, ℕ, List, [], Some, None, true, false, IfOk, IfErr, OnOk, IfSome};
ghost use Rattle.sha2.specs.Hashers.{Holds256};
ghost use Rattle.river_outside.specs.Causes.{Rose};
ghost use Rattle.piece_files.specs.Counts.{with_more};
ghost use Rattle.piece_files.specs.Held.{IfHeld};
ghost use Rattle.piece_begin.specs.Faults.{WhyNotBegunKept, WhyNotGrown};
ghost use Rattle.piece_begin.specs.Grown.{GrownIn, HoldsFront, IsBegunKept, begins_behind, extent_of, is_changed, old_of};

use crate::Call;
use crate::beginning::MOST;
use crate::jobs::cut_jobs;
use crate::marking::put_mark;
use crate::putting::{first_try, put_files};
use piece_files::{Inputs, JobFile, JobFiles};
use piece_keep::{Extent, Found, Front, Kept, find_kept};
use piece_work::{WorkFault, read_file};
use river_outside::Shelf;
use sha2::{Digest, Sha256};
use std::alloc::Global;

/// Cuts what the file has behind what the folder `keep` keeps of it into the records of jobs, puts what is kept, what the mark of all
/// jobs but the last begins with, and what `begin` puts. Where that folder keeps nothing of this file, header and program, all is
/// as `begin` does it, but for the mark. Says whether that folder keeps something else.
///
/// The faults are those of `begin`, and those of what is kept: `Unread` where that folder or the file failed.
pub fn begin_kept<S: Shelf, J: JobFiles, K: JobFiles>(
    alloc: Global,
    shelf: &mut S,
    call: &Call<'_>,
    inputs: &mut Inputs<J>,
    keep: &mut K,
) -> Result<bool, WorkFault>
    requires none { inputs.old.count ≡ 0 }
    ensures stays { S.held shelf.new ≡ S.held shelf.old }
    ensures later { S.faults shelf.old ≤ S.faults shelf.new }
    ensures keep_stays { K.held keep.new ≡ K.held keep.old }
    ensures keep_later { K.faults keep.old ≤ K.faults keep.new }
    ensures inputs_later { with_more (J.faults inputs.old.files) inputs.old.unnumbered ≤ with_more (J.faults inputs.new.files) inputs.new.unnumbered }
    ensures begun { IfOk result (λ changed. IfSome (S.held shelf.old) (λ h. IfHeld (K.held keep.old) (λ k. IsBegunKept (h call.now.program.now) (h call.now.file.now)
        call.now.header k changed (J.held inputs.old.files) (J.held inputs.new.files)))) }
    ensures refused { IfErr result (WhyNotBegunKept (S.held shelf.old) (Rose S.stays_at_last (S.faults shelf.old) (S.faults shelf.new))
        (Rose true (with_more (J.faults inputs.old.files) inputs.old.unnumbered) (with_more (J.faults inputs.new.files) inputs.new.unnumbered))
        (Rose K.stays_at_last (K.faults keep.old) (K.faults keep.new)) call.now.size.bytes call.now.program.now call.now.file.now (J.held inputs.new.files)) }
{
    let text = read_file(alloc, shelf, call.program, MOST)?;
    let found = find_kept(alloc, shelf, keep, call.file, call.header, text.as_slice())?;
    begin_found(alloc, shelf, call, inputs, text.as_slice(), &found)
}

// Begins behind what was found.
fn begin_found<S: Shelf, J: JobFiles>(
    alloc: Global,
    shelf: &mut S,
    call: &Call<'_>,
    inputs: &mut Inputs<J>,
    text: &[u8],
    found: &Found,
) -> Result<bool, WorkFault>
    requires none { inputs.old.count ≡ 0 }
    ensures stays { S.held shelf.new ≡ S.held shelf.old }
    ensures later { S.faults shelf.old ≤ S.faults shelf.new }
    ensures inputs_later { with_more (J.faults inputs.old.files) inputs.old.unnumbered ≤ with_more (J.faults inputs.new.files) inputs.new.unnumbered }
    ensures changed { IfOk result (λ changed. changed ≡ is_changed found.now) }
    ensures grown { OnOk result (IfSome (S.held shelf.old) (λ h. (m : List ℕ) → HoldsFront found.now m → GrownIn text.now (h call.now.file.now) call.now.header m
        (extent_of found.now) (begins_behind call.now.header found.now) (old_of found.now) (J.held inputs.old.files) (J.held inputs.new.files))) }
    ensures refused { IfErr result (WhyNotGrown (S.held shelf.old) (Rose S.stays_at_last (S.faults shelf.old) (S.faults shelf.new))
        (Rose true (with_more (J.faults inputs.old.files) inputs.old.unnumbered) (with_more (J.faults inputs.new.files) inputs.new.unnumbered))
        call.now.size.bytes call.now.file.now (J.held inputs.new.files)) }
{
    match found {
        Found::Nothing => {
            begin_first(alloc, shelf, call, inputs, text)?;
            Ok(false)
        }
        Found::Changed => {
            begin_first(alloc, shelf, call, inputs, text)?;
            Ok(true)
        }
        Found::This(kept) => {
            begin_behind(alloc, shelf, call, inputs, text, kept)?;
            Ok(false)
        }
    }
}

// Begins where nothing is kept.
fn begin_first<S: Shelf, J: JobFiles>(
    alloc: Global,
    shelf: &mut S,
    call: &Call<'_>,
    inputs: &mut Inputs<J>,
    text: &[u8],
) -> Result<(), WorkFault>
    requires none { inputs.old.count ≡ 0 }
    ensures stays { S.held shelf.new ≡ S.held shelf.old }
    ensures later { S.faults shelf.old ≤ S.faults shelf.new }
    ensures inputs_later { with_more (J.faults inputs.old.files) inputs.old.unnumbered ≤ with_more (J.faults inputs.new.files) inputs.new.unnumbered }
    ensures grown { OnOk result (IfSome (S.held shelf.old) (λ h. GrownIn text.now (h call.now.file.now) call.now.header []
        (record { at = 0; records = 0 }) call.now.header None (J.held inputs.old.files) (J.held inputs.new.files))) }
    ensures refused { IfErr result (WhyNotGrown (S.held shelf.old) (Rose S.stays_at_last (S.faults shelf.old) (S.faults shelf.new))
        (Rose true (with_more (J.faults inputs.old.files) inputs.old.unnumbered) (with_more (J.faults inputs.new.files) inputs.new.unnumbered))
        call.now.size.bytes call.now.file.now (J.held inputs.new.files)) }
{
    let jobs = cut_jobs(alloc, shelf, call, 0, call.header, inputs)?;
    let front = no_front();
    put_mark(alloc, &mut inputs.files, call.header, text, &front, jobs)?;
    let progress = first_try(jobs, call.header, false, 0);
    put_files(alloc, &mut inputs.files, text, progress)
}

// The front of no bytes.
fn no_front() -> Front
    ensures extent { result.extent ≡ record { at = 0; records = 0 } }
    ensures holds { Holds256 result.hasher [] }
{
    let extent = Extent { at: 0, records: 0 };
    let hasher = Sha256::new();
    Front { extent, hasher }
}

// Begins behind what is kept.
fn begin_behind<S: Shelf, J: JobFiles>(
    alloc: Global,
    shelf: &mut S,
    call: &Call<'_>,
    inputs: &mut Inputs<J>,
    text: &[u8],
    kept: &Kept,
) -> Result<(), WorkFault>
    requires none { inputs.old.count ≡ 0 }
    ensures stays { S.held shelf.new ≡ S.held shelf.old }
    ensures later { S.faults shelf.old ≤ S.faults shelf.new }
    ensures inputs_later { with_more (J.faults inputs.old.files) inputs.old.unnumbered ≤ with_more (J.faults inputs.new.files) inputs.new.unnumbered }
    ensures grown { OnOk result (IfSome (S.held shelf.old) (λ h. (m : List ℕ) → Holds256 kept.now.front.hasher m
        → GrownIn text.now (h call.now.file.now) call.now.header m kept.now.front.extent false
        (Some (record { tables = kept.now.tables; records = kept.now.front.extent.records })) (J.held inputs.old.files) (J.held inputs.new.files))) }
    ensures refused { IfErr result (WhyNotGrown (S.held shelf.old) (Rose S.stays_at_last (S.faults shelf.old) (S.faults shelf.new))
        (Rose true (with_more (J.faults inputs.old.files) inputs.old.unnumbered) (with_more (J.faults inputs.new.files) inputs.new.unnumbered))
        call.now.size.bytes call.now.file.now (J.held inputs.new.files)) }
{
    let jobs = cut_jobs(alloc, shelf, call, kept.front.extent.at, false, inputs)?;
    inputs.files.put(JobFile::Kept, kept.tables.as_slice())?;
    put_mark(
        alloc,
        &mut inputs.files,
        call.header,
        text,
        &kept.front,
        jobs,
    )?;
    let progress = first_try(jobs, false, true, kept.front.extent.records);
    put_files(alloc, &mut inputs.files, text, progress)
}
