// The program of a work folder.
ghost use Rattle.std.specs.Prelude.{◌≡◌, ◌<◌, ◌≤◌, ◌^◌, length, IfOk, IfErr};
ghost use Rattle.river_outside.specs.Causes.{Rose};
ghost use Rattle.piece_files.specs.Held.{IfHeld};
ghost use Rattle.piece_files.specs.declared.file.JobFile.TheVariants.{Program};
ghost use Rattle.river_outside.specs.Fetched.{FetchesAll};
ghost use Rattle.piece_jobs.specs.Next.{WhyNotNext};
ghost use Rattle.piece_jobs.specs.Plan.{HasPlan, IsPlanOf, IsPlanned, WhyRefused, most_text, of_text};

use piece_files::{JobFile, JobFiles};
use piece_work::WorkFault;
use river_base::Bytes;
use river_outside::FetchFault;
use river_plan::Plan;
use saw_front::{SawFault, compile_sawzall};
use std::alloc::Global;
use text_forms::TextFault;

/// How many bytes the text of a program has at most.
pub const MOST_TEXT: u64 = 67_108_864;

/// The plan of the program.
pub(crate) fn read_plan<J: JobFiles>(alloc: Global, files: &mut J) -> Result<Plan, WorkFault>
    ensures stays { J.held files.new ≡ J.held files.old }
    ensures later { J.faults files.old ≤ J.faults files.new }
    ensures plan { IfOk result (λ plan. IfHeld (J.held files.old) (λ h. HasPlan h plan)) }
    ensures planned { IfOk result IsPlanned }
    ensures refused { IfErr result (WhyNotNext (J.held files.old) (Rose J.stays_at_last (J.faults files.old) (J.faults files.new))) }
{
    let text = read_text(alloc, files)?;
    plan_of(alloc, &text)
}

// The text of the program.
fn read_text<J: JobFiles>(alloc: Global, files: &mut J) -> Result<Bytes, WorkFault>
    ensures stays { J.held files.new ≡ J.held files.old }
    ensures later { J.faults files.old ≤ J.faults files.new }
    ensures text { IfOk result (λ text. IfHeld (J.held files.old) (λ h. FetchesAll (h Program) most_text text)) }
    ensures within { IfOk result (λ text. length text ≤ most_text) }
    ensures refused { IfErr result (WhyNotNext (J.held files.old) (Rose J.stays_at_last (J.faults files.old) (J.faults files.new))) }
{
    match files.fetch(alloc, JobFile::Program, MOST_TEXT) {
        Ok(bytes) => Ok(bytes),
        Err(FetchFault::Absent) => Err(WorkFault::Absent),
        Err(FetchFault::Failed) => Err(WorkFault::Unread),
        Err(FetchFault::Large) => Err(WorkFault::Large),
        Err(FetchFault::NoMemory) => Err(WorkFault::NoMemory),
    }
}

// The plan of a text.
fn plan_of(alloc: Global, text: &Bytes) -> Result<Plan, WorkFault>
    requires { length text.now < 2 ^ 32 }
    ensures plan { IfOk result (IsPlanOf text.now) }
    ensures refused { IfErr result (WhyRefused text.now) }
{
    match compile_sawzall(alloc, text) {
        Ok((_, plan)) => Ok(plan),
        Err(fault) => Err(refused(fault)),
    }
}

// What is answered where a text has no program.
fn refused(fault: SawFault) -> WorkFault
    ensures { result ≡ of_text fault }
{
    match fault {
        SawFault::Text(TextFault::NoMemory) => WorkFault::NoMemory,
        _ => WorkFault::Program,
    }
}
