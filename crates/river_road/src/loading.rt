// `load`: a program in Sawzall, and the records that are made for it.
ghost use Rattle.std.specs.Prelude.{◌≡◌, ◌≤◌, [], ◌∷◌, List, length, IfOk};
ghost use Rattle.river_outside.specs.Passes.{Answers, AnswersAs};
ghost use Rattle.river_plan.specs.declared.caps.Cap.{Cap};
ghost use Rattle.river_road.specs.Contents.{AreContents};
ghost use Rattle.river_road.specs.Supplied.{IsGathered};
ghost use Rattle.river_road.specs.Limits.{most_program, most_script};
ghost use Rattle.river_road.specs.Load.{load_program, load_script, load_records, load_files, takes_pairs, is_of_pairs};
ghost use Rattle.river_road.specs.Points.{load_supplied, scripted_supplied, supplied_by, with_plan};
ghost use Rattle.river_road.specs.Source.{SourceProgram, IsPlanned, IsCompiled};
ghost use Rattle.river_road.specs.declared.content.FileContent.TheVariants.{Rows as Plain};
ghost use Rattle.river_script.specs.Meaning.{rewritten};

use crate::content::FileContent;
use crate::gathered::Gathered;
use crate::language::{Compiled, Language};
use crate::script::applied;
use crate::text;
use kern_rows::EvenRows;
use river_base::{Bytes, FlatType, Listed, NoMemory, QueueType};
use river_outside::Stop;
use river_plan::{Caps, Decl, Plan};
use std::alloc::Global;

const TABLES: &[u8] =
    b"count: table sum of int;\ntotal: table sum[k: int] of v: int;\ntop: table maximum(2) of v: int weight w: int;\n";

const EMITS: &[u8] =
    b"emit count <- 1;\nemit total[input[0]] <- input[1];\nemit top <- input[0] weight input[1];\n";

const SCRIPT: &[u8] = b"fuse count@q;\nfuse total@q;\nfuse top@q;\nfission map 4;\n";

/// The load program, compiled and rewritten by its script, over the first `number` records; `L` is
/// the language that its text is in, Sawzall.
pub fn gather_load<L: Language>(alloc: Global, number: u32) -> Result<Gathered, Stop>
    ensures { AnswersAs IsGathered (load_supplied L.source number) result }
{
    let compiled = load_compiled::<L>(alloc)?;
    let caps = compiled.caps;
    load_scripted(alloc, number, &compiled.plan, caps)
}

// The program, compiled.
fn load_compiled<L: Language>(alloc: Global) -> Result<Compiled<L::Program>, Stop>
    ensures { AnswersAs (IsCompiled L.stands) (L.source load_program) result }
{
    let text = program(alloc)?;
    L::compile(alloc, &text)
}

// The plan that the script makes of this one, over the records.
fn load_scripted(alloc: Global, number: u32, plan: &Plan, caps: Caps) -> Result<Gathered, Stop>
    ensures { (source : SourceProgram) → IsPlanned caps source plan.now
        → AnswersAs IsGathered (scripted_supplied number source) result }
{
    let made = load_rewritten(alloc, plan)?;
    load_over(alloc, number, made, caps)
}

// The plan that the script makes of this one.
fn load_rewritten(alloc: Global, plan: &Plan) -> Result<Plan, Stop>
    ensures { (caps : List Cap) (source : SourceProgram) → IsPlanned caps source plan.now
        → AnswersAs (IsPlanned caps) (with_plan source (rewritten source.plan load_script)) result }
{
    let text = script(alloc)?;
    applied(alloc, plan, &text)
}

// A plan over the records.
fn load_over(alloc: Global, number: u32, plan: Plan, caps: Caps) -> Result<Gathered, Stop>
    ensures { (source : SourceProgram) → IsPlanned caps source plan → AnswersAs IsGathered (supplied_by number source) result }
{
    let files = files_for(alloc, plan.raw().inputs.as_slice(), number)?;
    Ok(Gathered::over(alloc, plan, caps, files)?)
}

#[tactic(auto, unfolding(crate::specs::Load::load_program))]
fn program(alloc: Global) -> Result<Bytes, NoMemory>
    ensures short { IfOk result (λ text. length text ≤ most_program) }
    ensures text { IfOk result (λ text. text ≡ load_program) }
{
    let mut text = Bytes::from_slice(alloc, TABLES)?;
    text.extend(EMITS)?;
    Ok(text)
}

#[tactic(auto, unfolding(crate::specs::Load::load_script))]
fn script(alloc: Global) -> Result<Bytes, NoMemory>
    ensures short { IfOk result (λ text. length text ≤ most_script) }
    ensures text { IfOk result (λ text. text ≡ load_script) }
{
    Bytes::from_slice(alloc, SCRIPT)
}

// The records, as what the one input of a program has.
fn files_for(alloc: Global, decls: &[Decl], number: u32) -> Result<Listed<FileContent>, Stop>
    ensures contents { IfOk result (AreContents decls.now) }
    ensures answers { Answers (load_files number decls.now) result }
{
    if !takes_pairs(decls) {
        return Err(Stop::Refused(text::missing(alloc, b"in")?));
    }
    Ok(files_of(alloc, records(alloc, number)?)?)
}

// What the one input has.
fn files_of(alloc: Global, rows: EvenRows) -> Result<Listed<FileContent>, NoMemory>
    ensures { IfOk result (λ files. files ≡ Plain rows ∷ []) }
{
    let mut files = Listed::new(alloc);
    files.push(FileContent::Rows(rows))?;
    Ok(files)
}

// Whether there is one input, of rows of two values.
fn takes_pairs(decls: &[Decl]) -> bool
    ensures { result ≡ takes_pairs decls.now }
{
    match decls {
        [decl] => is_of_pairs(decl.kind),
        _ => false,
    }
}

fn is_of_pairs(kind: QueueType) -> bool
    ensures { result ≡ is_of_pairs kind }
{
    match kind {
        QueueType::Flat(FlatType::Rows(width)) => width == 2,
        QueueType::Flat(_) | QueueType::Pack(_) => false,
    }
}

// The first records: number k has the last digit of k, and the number that stands before this digit.
fn records(alloc: Global, number: u32) -> Result<EvenRows, NoMemory>
    ensures { IfOk result (λ rows. rows ≡ load_records number) }
{
    let mut rows = EvenRows::new(alloc);
    for before in 0..number {
        let k = before + 1;
        rows.push(&[i64::from(k % 10), i64::from(k / 10)])?;
    }
    Ok(rows)
}
