// A program begins to be run in pieces.
ghost use Rattle.std.specs.Prelude.{◌≡◌, ◌≤◌, true, IfOk, IfErr, OnOk, IfSome};
ghost use Rattle.river_outside.specs.Causes.{Rose};
ghost use Rattle.csv_cuts.specs.Window.{TookWithin};
ghost use Rattle.piece_files.specs.Counts.{with_more};
ghost use Rattle.piece_files.specs.Inputs.{inputs_told};
ghost use Rattle.piece_begin.specs.Begun.{Begun};
ghost use Rattle.piece_begin.specs.Faults.{WhyNotBegun};

use crate::jobs::cut_jobs;
use crate::putting::{first_try, put_files};
use csv_cuts::Size;
use piece_files::{Inputs, JobFiles};
use piece_work::{WorkFault, read_file};
use river_outside::Shelf;
use std::alloc::Global;

// How many bytes of a program are read at most: 64 MiB.
pub(crate) const MOST: u64 = 67_108_864;

/// What is to be run in pieces.
#[derive(Clone, Copy)]
pub struct Call<'a> {
    /// The name of the file that has the text of the program.
    pub program: &'a [u8],
    /// The name of the file that is cut.
    pub file: &'a [u8],
    /// Whether it begins with a header.
    pub header: bool,
    /// How large a piece is to be.
    pub size: Size,
}

/// Cuts the file into the records of jobs, puts the text of the program, of at most 64 MiB, the words of each job, the state and
/// the list of all jobs, and says how many jobs there are: at least one. No job has more records than a piece is to have, but where
/// no piece with so few can be cut off. What is put stands in the folder of `inputs`, which has
/// taken nothing yet. Nothing is put before the program is read, and nothing but records of jobs before the file is cut.
///
/// `Absent`, `Unread` and `Large` are of the program or of the file; `Large` also where a piece would have more bytes than it may
/// have; `Unwritten` where the folder failed. More than 2^32 - 1 jobs are `NoMemory`.
pub fn begin<S: Shelf, J: JobFiles>(
    alloc: Global,
    shelf: &mut S,
    call: &Call<'_>,
    inputs: &mut Inputs<J>,
) -> Result<u32, WorkFault>
    requires none { inputs.old.count ≡ 0 }
    ensures stays { S.held shelf.new ≡ S.held shelf.old }
    ensures later { S.faults shelf.old ≤ S.faults shelf.new }
    ensures inputs_later { with_more (J.faults inputs.old.files) inputs.old.unnumbered ≤ with_more (J.faults inputs.new.files) inputs.new.unnumbered }
    ensures begun { IfOk result (λ jobs. IfSome (S.held shelf.old) (λ h. Begun (h call.now.program.now) (h call.now.file.now)
        call.now.header jobs (J.held inputs.old.files) (J.held inputs.new.files))) }
    ensures within { OnOk result (TookWithin call.now.size.records call.now.size.bytes (inputs_told (J.held inputs.old.files) inputs.old.count)
        (inputs_told (J.held inputs.new.files) inputs.new.count)) }
    ensures refused { IfErr result (WhyNotBegun (S.held shelf.old) (Rose S.stays_at_last (S.faults shelf.old) (S.faults shelf.new))
        (Rose true (with_more (J.faults inputs.old.files) inputs.old.unnumbered) (with_more (J.faults inputs.new.files) inputs.new.unnumbered))
        call.now.size.bytes call.now.program.now call.now.file.now) }
{
    let text = read_file(alloc, shelf, call.program, MOST)?;
    let jobs = cut_jobs(alloc, shelf, call, 0, call.header, inputs)?;
    let progress = first_try(jobs, call.header, false, 0);
    put_files(alloc, &mut inputs.files, text.as_slice(), progress)?;
    Ok(jobs)
}
