// What is printed in the end.
ghost use Rattle.std.specs.Prelude.{◌≡◌, ◌≤◌, OnOk, IfErr};
ghost use Rattle.river_outside.specs.Causes.{Rose};
ghost use Rattle.piece_files.specs.Held.{IfHeld};
ghost use Rattle.piece_files.specs.declared.file.JobFile.TheVariants.{Whole};
ghost use Rattle.piece_begin.specs.Printed.{Printed, WhyNotPrinted};

use piece_files::{JobFile, JobFiles};
use piece_jobs::fetch_file;
use piece_work::WorkFault;
use river_outside::{Sink, put_all};
use std::alloc::Global;

/// Writes what is printed in the end, of at most 1 TiB, to the sink.
///
/// `Absent` where there is no such file, `Unread` where the folder failed, `Large` where it has more bytes; then the sink took
/// nothing. `Unwritten` where the sink failed: it took a proper front.
pub fn print<J: JobFiles, K: Sink>(
    alloc: Global,
    files: &mut J,
    out: &mut K,
) -> Result<(), WorkFault>
    ensures stays { J.held files.new ≡ J.held files.old }
    ensures later { J.faults files.old ≤ J.faults files.new }
    ensures out_later { K.faults out.old ≤ K.faults out.new }
    ensures printed { OnOk result (IfHeld (J.held files.old) (λ h. Printed (h Whole) (K.taken out.old) (K.taken out.new))) }
    ensures refused { IfErr result (WhyNotPrinted (J.held files.old) (Rose J.stays_at_last (J.faults files.old) (J.faults files.new))
        (Rose K.stays_at_last (K.faults out.old) (K.faults out.new)) (K.taken out.old) (K.taken out.new)) }
{
    let bytes = fetch_file(alloc, files, JobFile::Whole)?;
    put_all(out, bytes.as_slice())?;
    Ok(())
}
