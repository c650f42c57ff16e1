// Why a program was refused in pieces.
ghost use Rattle.std.specs.Prelude.{◌≡◌, ◌≤◌, ◌<◌, ◌+◌, ◌^◌, ◌++◌, ℕ, List, codes, true, length, IfOk, IfErr, IfSome, OnOk};
ghost use Rattle.std.specs.Fmt.{decimal};
ghost use Rattle.csv_cuts.specs.Faults.{IsOfRecord, moved};
ghost use Rattle.csv_streams.specs.FaultWords.{in_words};
ghost use Rattle.csv_streams.specs.Records.{csv_records};
ghost use Rattle.csv_streams.specs.Rows.{rows_of_file};
ghost use Rattle.piece_files.specs.Held.{IfHeld};
ghost use Rattle.piece_keep.specs.Fed.{records_held};
ghost use Rattle.piece_files.specs.declared.file.JobFile.TheVariants.{Input, Err as Told};
ghost use Rattle.piece_work.specs.Faults.{most_file};
ghost use Rattle.piece_work.specs.Held.{bytes_of};
ghost use Rattle.river_outside.specs.Causes.{Rose};
ghost use Rattle.river_outside.specs.Fetched.{FetchesAll};
ghost use Rattle.river_kernels.specs.Fits.{rows};
ghost use Rattle.saw_front.specs.Meaning.{program_in};
ghost use Rattle.saw_model.specs.Meaning.{width};
ghost use Rattle.piece_jobs.specs.Came.{Ended};
ghost use Rattle.piece_jobs.specs.Jobs.{has_header};
ghost use Rattle.piece_jobs.specs.Next.{IsTold, WhyNotNext, fault_text};
ghost use Rattle.piece_jobs.specs.Plan.{IsPlanOf};
ghost use Rattle.piece_jobs.specs.Told.{IsFaultIn, IsFaultOf, IsWidthOf};
ghost use Rattle.piece_jobs.specs.declared.came.Ending.TheVariants.{Refused};

use crate::fetched::{fetch_file, find_file};
use crate::plan::read_plan;
use csv_cuts::records_in;
use csv_streams::{InFault, read_even};
use piece_files::{JobFile, JobFiles};
use piece_work::WorkFault;
use river_base::{Bytes, FlatType, NoMemory, QueueType};
use river_plan::Plan;
use std::alloc::Global;

/// What is told where the job behind so many is the first that was refused, in this try: the fault of its record, with the record's
/// number in the whole file, where `kept` records stand before those of the first job; or, where its records have no such fault, what
/// the job told.
pub(crate) fn told<J: JobFiles>(
    alloc: Global,
    files: &mut J,
    header: bool,
    kept: u64,
    before: u64,
    turn: u32,
) -> Result<Bytes, WorkFault>
    requires few { before < 2 ^ 32 }
    requires ended { IfHeld (J.held files.old) (λ h. Ended h (before + 1) turn Refused) }
    ensures stays { J.held files.new ≡ J.held files.old }
    ensures later { J.faults files.old ≤ J.faults files.new }
    ensures told { IfOk result (λ told. IfHeld (J.held files.old) (λ h. IsTold h header kept before turn told)) }
    ensures refused { IfErr result (WhyNotNext (J.held files.old) (Rose J.stays_at_last (J.faults files.old) (J.faults files.new))) }
{
    let job = before + 1;
    match fault_of_job(alloc, files, begins(header, job), job)? {
        Some(fault) => told_of_record(alloc, files, fault, kept, before),
        None => told_by_job(alloc, files, job, turn),
    }
}

// Whether the records of a job begin with the header.
fn begins(header: bool, job: u64) -> bool
    ensures { result ≡ has_header header job }
{
    header && job == 1
}

// What a job told that was refused.
fn told_by_job<J: JobFiles>(
    alloc: Global,
    files: &mut J,
    job: u64,
    turn: u32,
) -> Result<Bytes, WorkFault>
    requires { IfHeld (J.held files.old) (λ h. Ended h job turn Refused) }
    ensures stays { J.held files.new ≡ J.held files.old }
    ensures later { J.faults files.old ≤ J.faults files.new }
    ensures told { IfOk result (λ told. IfHeld (J.held files.old) (λ h. FetchesAll (h (Told job turn)) most_file told)) }
    ensures refused { IfErr result (WhyNotNext (J.held files.old) (Rose J.stays_at_last (J.faults files.old) (J.faults files.new))) }
{
    match find_file(alloc, files, JobFile::Err { job, turn })? {
        Some(told) => Ok(told),
        None => Ok(Bytes::new(alloc)),
    }
}

// The fault of a record of a job, where its records have one for the program; `header` says whether they begin with a header.
fn fault_of_job<J: JobFiles>(
    alloc: Global,
    files: &mut J,
    header: bool,
    job: u64,
) -> Result<Option<InFault>, WorkFault>
    ensures stays { J.held files.new ≡ J.held files.old }
    ensures later { J.faults files.old ≤ J.faults files.new }
    ensures fault { IfOk result (λ found. IfHeld (J.held files.old) (λ h. IsFaultOf h header job found)) }
    ensures record { IfOk result (λ found. IfSome found IsOfRecord) }
    ensures refused { IfErr result (WhyNotNext (J.held files.old) (Rose J.stays_at_last (J.faults files.old) (J.faults files.new))) }
{
    let Some(width) = width_of_program(alloc, files)? else {
        return Ok(None);
    };
    match find_file(alloc, files, JobFile::Input { job })? {
        Some(piece) => Ok(fault_in(alloc, &piece, width, header)?),
        None => Ok(None),
    }
}

// The width of the records that the program reads, 1 to 16: none where it is refused.
fn width_of_program<J: JobFiles>(alloc: Global, files: &mut J) -> Result<Option<u32>, WorkFault>
    ensures stays { J.held files.new ≡ J.held files.old }
    ensures later { J.faults files.old ≤ J.faults files.new }
    ensures width { IfOk result (λ width. IfHeld (J.held files.old) (λ h. IsWidthOf h width)) }
    ensures some { IfOk result (λ width. IfSome width (λ w. 1 ≤ w)) }
    ensures at_most { IfOk result (λ width. IfSome width (λ w. w ≤ 16)) }
    ensures refused { IfErr result (WhyNotNext (J.held files.old) (Rose J.stays_at_last (J.faults files.old) (J.faults files.new))) }
{
    match read_plan(alloc, files) {
        Ok(plan) => Ok(Some(width_of(&plan))),
        Err(WorkFault::Program) => Ok(None),
        Err(fault) => Err(fault),
    }
}

// The width of the rows of the first input; 1 where there is none, which no program has.
fn width_of(plan: &Plan) -> u32
    ensures width { (text : List ℕ) (is : IsPlanOf text plan.now) → result ≡ width (program_in is.program) }
    ensures some { 1 ≤ result }
    ensures at_most { result ≤ 16 }
{
    match plan.raw().inputs.as_slice().first() {
        Some(input) => clamped(input.kind),
        None => 1,
    }
}

// The width of rows of a type, or 1 where it is none of 1 to 16.
fn clamped(kind: QueueType) -> u32
    ensures width { (w : ℕ) → kind ≡ rows w → 1 ≤ w → w ≤ 16 → result ≡ w }
    ensures some { 1 ≤ result }
    ensures at_most { result ≤ 16 }
{
    match kind {
        QueueType::Flat(FlatType::Rows(width)) if width >= 1 && width <= 16 => width,
        _ => 1,
    }
}

// The fault of a record of records that are to have this width.
fn fault_in(
    alloc: Global,
    piece: &Bytes,
    width: u32,
    header: bool,
) -> Result<Option<InFault>, NoMemory>
    requires some { 1 ≤ width }
    requires at_most { width ≤ 16 }
    ensures { IfOk result (IsFaultIn (rows_of_file piece.now width header true)) }
{
    match read_even(alloc, piece, width, header, true) {
        Ok(_) => Ok(None),
        Err(InFault::NoMemory) => Err(NoMemory),
        Err(InFault::TooMany) => Ok(None),
        Err(fault) => Ok(Some(fault)),
    }
}

// What is told of the fault of a record, where what is kept has so many records, and so many jobs stand before.
fn told_of_record<J: JobFiles>(
    alloc: Global,
    files: &mut J,
    fault: InFault,
    kept: u64,
    before: u64,
) -> Result<Bytes, WorkFault>
    requires record { IsOfRecord fault }
    requires few { before < 2 ^ 32 }
    ensures stays { J.held files.new ≡ J.held files.old }
    ensures later { J.faults files.old ≤ J.faults files.new }
    ensures told { IfOk result (λ told. IfHeld (J.held files.old) (λ h. told ≡ fault_text (kept + records_held h before) fault)) }
    ensures refused { IfErr result (WhyNotNext (J.held files.old) (Rose J.stays_at_last (J.faults files.old) (J.faults files.new))) }
{
    let records = records_before(alloc, files, before)?;
    let all = added(kept, records)?;
    Ok(fault_line(alloc, fault, all)?)
}

// How many records so many jobs have, from the first on, with the header.
#[tactic(auto, using(crate::proofs::Tells::counts, crate::proofs::Whys::laters))]
fn records_before<J: JobFiles>(alloc: Global, files: &mut J, before: u64) -> Result<u64, WorkFault>
    requires { before < 2 ^ 32 }
    ensures stays { J.held files.new ≡ J.held files.old }
    ensures later { J.faults files.old ≤ J.faults files.new }
    ensures count { IfOk result (λ count. IfHeld (J.held files.old) (λ h. count ≡ records_held h before)) }
    ensures refused { IfErr result (WhyNotNext (J.held files.old) (Rose J.stays_at_last (J.faults files.old) (J.faults files.new))) }
{
    let mut count = 0u64;
    for job in 0..before {
        let records = records_of(alloc, files, job + 1)?;
        count = added(count, records)?;
    }
    Ok(count)
}

// How many records a job has; none where it has no file.
fn records_of<J: JobFiles>(alloc: Global, files: &mut J, job: u64) -> Result<u64, WorkFault>
    ensures stays { J.held files.new ≡ J.held files.old }
    ensures later { J.faults files.old ≤ J.faults files.new }
    ensures count { IfOk result (λ count. IfHeld (J.held files.old) (λ h. count ≡ length (csv_records (bytes_of (h (Input job)))))) }
    ensures refused { IfErr result (WhyNotNext (J.held files.old) (Rose J.stays_at_last (J.faults files.old) (J.faults files.new))) }
{
    match fetch_file(alloc, files, JobFile::Input { job }) {
        Ok(piece) => Ok(records_in(piece.as_slice()) as u64),
        Err(WorkFault::Absent) => Ok(0),
        Err(fault) => Err(fault),
    }
}

// The sum of two counts; one above 2^64 - 1 has no memory.
fn added(a: u64, b: u64) -> Result<u64, NoMemory>
    ensures { IfOk result (λ sum. sum ≡ a + b) }
{
    match a.checked_add(b) {
        Some(sum) => Ok(sum),
        None => Err(NoMemory),
    }
}

// What is told of the fault of a record, before which so many records more stand.
fn fault_line(alloc: Global, fault: InFault, records: u64) -> Result<Bytes, NoMemory>
    requires { IsOfRecord fault }
    ensures { IfOk result (λ text. text ≡ fault_text records fault) }
{
    let mut text = Bytes::from_slice(alloc, b"refused: input in: ")?;
    put_fault(fault, records, &mut text)?;
    text.push(b'\n')?;
    Ok(text)
}

// Appends the words of a fault.
fn put_fault(fault: InFault, records: u64, to: &mut Bytes) -> Result<(), NoMemory>
    requires { IsOfRecord fault }
    ensures { OnOk result (to.new ≡ to.old ++ in_words (moved records fault)) }
{
    match fault {
        InFault::Width { rec } => put_record(b"I1 ", rec, records, to),
        InFault::NotNumber { rec, field } => put_field(rec, records, field, to),
        InFault::Backwards { rec } => put_record(b"I3 ", rec, records, to),
        InFault::NegativeTime { rec } => put_record(b"I4 ", rec, records, to),
        InFault::TooMany | InFault::NoMemory => Err(NoMemory),
    }
}

// Appends a word and the number of a record.
fn put_record(word: &[u8], rec: u32, records: u64, to: &mut Bytes) -> Result<(), NoMemory>
    ensures { OnOk result (to.new ≡ to.old ++ (word.now ++ decimal (records + rec))) }
{
    let number = added(records, u64::from(rec))?;
    to.extend(word)?;
    to.put_number(number)
}

// Appends the words of a field that is no number.
fn put_field(rec: u32, records: u64, field: u32, to: &mut Bytes) -> Result<(), NoMemory>
    ensures { OnOk result (to.new ≡ to.old ++ (codes "I2 " ++ (decimal (records + rec) ++ (codes " " ++ decimal field)))) }
{
    put_record(b"I2 ", rec, records, to)?;
    to.push(b' ')?;
    to.put_number(field)
}
