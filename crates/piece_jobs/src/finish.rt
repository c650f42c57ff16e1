// What all that the jobs printed comes to.
ghost use Rattle.std.specs.Prelude.{◌≡◌, ◌≤◌, ◌++◌, [], ◌∷◌, All, OnOk, IfOk, IfErr};
ghost use Rattle.std.specs.List.{AllByRecursion};
ghost use Rattle.kern_tables.specs.Tables.{table_width};
ghost use Rattle.piece_files.specs.Held.{IfHeld};
ghost use Rattle.piece_merge.specs.Added.{IsMergeOf};
ghost use Rattle.piece_work.specs.Held.{bytes_of};
ghost use Rattle.river_outside.specs.Causes.{Rose};
ghost use Rattle.piece_jobs.specs.Merged.{Adds, HasTables, HaveCome, IsPrinted, IsPrintedBy, PutMerge, WhyNotAdded, out_of};
ghost use Rattle.piece_jobs.specs.Next.{IsFinished, WhyNotNext, kept_texts, outs_of};
ghost use Rattle.piece_jobs.specs.Verdict.{IsDone};

use crate::Came;
use crate::fetched::fetch_file;
use crate::plan::read_plan;
use piece_files::{JobFile, JobFiles};
use piece_merge::{Merger, NoMerge};
use piece_work::WorkFault;
use river_base::Bytes;
use river_plan::{Plan, TableDecl};
use std::alloc::Global;

/// Writes what is printed in the end: the tables of what is kept of an earlier call, if anything is, and of what the jobs printed.
pub(crate) fn finish<J: JobFiles>(
    alloc: Global,
    files: &mut J,
    kept: bool,
    found: &[Option<Came>],
) -> Result<(), WorkFault>
    requires came { IfHeld (J.held files.old) (λ h. HaveCome h found.now) }
    requires done { AllByRecursion IsDone found.now }
    ensures later { J.faults files.old ≤ J.faults files.new }
    ensures finished { OnOk result (IfHeld (J.held files.old) (λ h. IsFinished h kept found.now (J.held files.new))) }
    ensures refused { IfErr result (WhyNotNext (J.held files.old) (Rose J.stays_at_last (J.faults files.old) (J.faults files.new))) }
{
    let plan = read_plan(alloc, files)?;
    finish_by(alloc, files, tables_of(&plan), kept, found)
}

// Writes the tables of all that was printed.
fn finish_by<J: JobFiles>(
    alloc: Global,
    files: &mut J,
    tables: &[TableDecl],
    kept: bool,
    found: &[Option<Came>],
) -> Result<(), WorkFault>
    requires plan { IfHeld (J.held files.old) (λ h. HasTables h tables.now) }
    requires narrow { All (λ t. table_width t.kind ≤ 16) tables.now }
    requires came { IfHeld (J.held files.old) (λ h. HaveCome h found.now) }
    requires done { AllByRecursion IsDone found.now }
    ensures later { J.faults files.old ≤ J.faults files.new }
    ensures put { OnOk result (IfHeld (J.held files.old) (λ h. PutMerge tables.now (kept_texts h kept ++ outs_of h 1 found.now) h (J.held files.new))) }
    ensures refused { IfErr result (WhyNotNext (J.held files.old) (Rose J.stays_at_last (J.faults files.old) (J.faults files.new))) }
{
    let text = merged(alloc, files, tables, kept, found)?;
    files.put(JobFile::Whole, text.as_slice())?;
    Ok(())
}

/// The tables of a plan.
pub(crate) fn tables_of(plan: &Plan) -> &[TableDecl]
    ensures { result.now ≡ plan.now.tables }
{
    plan.raw().tables.as_slice()
}

/// What a run would print of the tables of all that was printed.
pub(crate) fn merged<J: JobFiles>(
    alloc: Global,
    files: &mut J,
    tables: &[TableDecl],
    kept: bool,
    found: &[Option<Came>],
) -> Result<Bytes, WorkFault>
    requires plan { IfHeld (J.held files.old) (λ h. HasTables h tables.now) }
    requires narrow { All (λ t. table_width t.kind ≤ 16) tables.now }
    requires came { IfHeld (J.held files.old) (λ h. HaveCome h found.now) }
    requires done { AllByRecursion IsDone found.now }
    ensures stays { J.held files.new ≡ J.held files.old }
    ensures later { J.faults files.old ≤ J.faults files.new }
    ensures merge { IfOk result (λ text. IfHeld (J.held files.old) (λ h. IsMergeOf tables.now (kept_texts h kept ++ outs_of h 1 found.now) text)) }
    ensures refused { IfErr result (WhyNotNext (J.held files.old) (Rose J.stays_at_last (J.faults files.old) (J.faults files.new))) }
{
    let mut merger = Merger::new(alloc, tables)?;
    if kept {
        add_file(alloc, files, JobFile::Kept, &mut merger)?;
    }
    add_outs(alloc, files, found, &mut merger)?;
    Ok(merger.text(alloc)?)
}

// Adds what the jobs printed that came, in their order.
#[tactic(auto, using(crate::proofs::Merges::outs, crate::proofs::Whys::laters))]
fn add_outs<J: JobFiles>(
    alloc: Global,
    files: &mut J,
    found: &[Option<Came>],
    to: &mut Merger,
) -> Result<(), WorkFault>
    requires plan { IfHeld (J.held files.old) (λ h. HasTables h to.old.tables) }
    requires came { IfHeld (J.held files.old) (λ h. HaveCome h found.now) }
    requires done { AllByRecursion IsDone found.now }
    ensures stays { J.held files.new ≡ J.held files.old }
    ensures later { J.faults files.old ≤ J.faults files.new }
    ensures tables { to.new.tables ≡ to.old.tables }
    ensures added { OnOk result (IfHeld (J.held files.old) (λ h. Adds (outs_of h 1 found.now) to.old to.new)) }
    ensures refused { IfErr result (WhyNotNext (J.held files.old) (Rose J.stays_at_last (J.faults files.old) (J.faults files.new))) }
{
    for place in 0..found.len() {
        add_job(alloc, files, place as u64 + 1, found[place], to)?;
    }
    Ok(())
}

// Adds what a job printed, if it came.
#[tactic(auto, using(crate::proofs::Merges::one_job))]
fn add_job<J: JobFiles>(
    alloc: Global,
    files: &mut J,
    job: u64,
    found: Option<Came>,
    to: &mut Merger,
) -> Result<(), WorkFault>
    requires plan { IfHeld (J.held files.old) (λ h. HasTables h to.old.tables) }
    requires printed { IfHeld (J.held files.old) (λ h. IsPrintedBy h job found) }
    ensures stays { J.held files.new ≡ J.held files.old }
    ensures later { J.faults files.old ≤ J.faults files.new }
    ensures tables { to.new.tables ≡ to.old.tables }
    ensures added { OnOk result (IfHeld (J.held files.old) (λ h. Adds (out_of h job found) to.old to.new)) }
    ensures refused { IfErr result (WhyNotNext (J.held files.old) (Rose J.stays_at_last (J.faults files.old) (J.faults files.new))) }
{
    match found {
        Some(came) => add_file(
            alloc,
            files,
            JobFile::Out {
                job,
                turn: came.turn,
            },
            to,
        ),
        None => Ok(()),
    }
}

// Adds what a file has, which is what a run printed.
fn add_file<J: JobFiles>(
    alloc: Global,
    files: &mut J,
    file: JobFile,
    to: &mut Merger,
) -> Result<(), WorkFault>
    requires plan { IfHeld (J.held files.old) (λ h. HasTables h to.old.tables) }
    requires printed { IfHeld (J.held files.old) (λ h. IsPrinted h file) }
    ensures stays { J.held files.new ≡ J.held files.old }
    ensures later { J.faults files.old ≤ J.faults files.new }
    ensures tables { to.new.tables ≡ to.old.tables }
    ensures added { OnOk result (IfHeld (J.held files.old) (λ h. Adds (bytes_of (h file) ∷ []) to.old to.new)) }
    ensures refused { IfErr result (WhyNotNext (J.held files.old) (Rose J.stays_at_last (J.faults files.old) (J.faults files.new))) }
{
    let text = fetch_file(alloc, files, file)?;
    add_text(alloc, &text, to)
}

// Adds a text that a run printed.
fn add_text(alloc: Global, text: &Bytes, to: &mut Merger) -> Result<(), WorkFault>
    ensures tables { to.new.tables ≡ to.old.tables }
    ensures added { OnOk result (Adds (text.now ∷ []) to.old to.new) }
    ensures refused { IfErr result (WhyNotAdded to.old.tables text.now) }
{
    match to.add(alloc, text) {
        Ok(()) => Ok(()),
        Err(NoMerge::Other) => Err(WorkFault::Other),
        Err(NoMerge::NoMemory) => Err(WorkFault::NoMemory),
    }
}
