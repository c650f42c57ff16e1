// A file becomes the records of jobs.
ghost use Rattle.std.specs.Prelude.{◌≡◌, ◌≤◌, true, IfOk, IfErr, OnOk, IfSome};
ghost use Rattle.river_outside.specs.Causes.{Rose};
ghost use Rattle.csv_cuts.specs.Window.{TookWithin};
ghost use Rattle.piece_files.specs.Counts.{with_more};
ghost use Rattle.piece_files.specs.Inputs.{inputs_told};
ghost use Rattle.piece_work.specs.Cutting.{WhyNotCut};
ghost use Rattle.piece_begin.specs.Begun.{CutIn};

use crate::Call;
use piece_files::{Inputs, JobFiles};
use piece_work::{WorkFault, cut_shelf};
use river_outside::Shelf;
use std::alloc::Global;

/// Cuts what the file has behind so many bytes into the records of jobs, and says how many jobs there are. The first of them may begin
/// with a header.
pub(crate) fn cut_jobs<S: Shelf, J: JobFiles>(
    alloc: Global,
    shelf: &mut S,
    call: &Call<'_>,
    from: u64,
    header: bool,
    inputs: &mut Inputs<J>,
) -> Result<u32, WorkFault>
    requires none { inputs.old.count ≡ 0 }
    ensures stays { S.held shelf.new ≡ S.held shelf.old }
    ensures later { S.faults shelf.old ≤ S.faults shelf.new }
    ensures inputs_later { with_more (J.faults inputs.old.files) inputs.old.unnumbered ≤ with_more (J.faults inputs.new.files) inputs.new.unnumbered }
    ensures cut { IfOk result (λ jobs. IfSome (S.held shelf.old) (λ h. CutIn (h call.now.file.now) from header jobs
        (J.held inputs.old.files) (J.held inputs.new.files))) }
    ensures within { OnOk result (TookWithin call.now.size.records call.now.size.bytes (inputs_told (J.held inputs.old.files) inputs.old.count)
        (inputs_told (J.held inputs.new.files) inputs.new.count)) }
    ensures refused { IfErr result (λ fault. WhyNotCut (S.held shelf.old) (Rose S.stays_at_last (S.faults shelf.old) (S.faults shelf.new))
        (Rose true (with_more (J.faults inputs.old.files) inputs.old.unnumbered) (with_more (J.faults inputs.new.files) inputs.new.unnumbered))
        from call.now.size.bytes fault call.now.file.now) }
{
    cut_shelf(alloc, shelf, call.file, from, header, call.size, inputs)?;
    match u32::try_from(inputs.count) {
        Ok(jobs) => Ok(jobs),
        Err(_) => Err(WorkFault::NoMemory),
    }
}
