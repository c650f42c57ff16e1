// What a program means by its language's own definition, without its plan.
ghost use Rattle.std.specs.Prelude.{◌≡◌, false, IfOk};
ghost use Rattle.river_plan.specs.Valid.{IsPlan};
ghost use Rattle.river_road.specs.Contents.{AreContents};
ghost use Rattle.river_road.specs.Source.{SourceProgram, IsCompiled, HasSource, printed};

use crate::content::FileContent;
use crate::language::{Compiled, Language};
use csv_streams::print_outcome;
use river_base::{Bytes, Listed, NoMemory};
use std::alloc::Global;

/// What is printed of the slow meaning of a program for what the files of its inputs have.
pub(crate) fn mean_text<L: Language>(
    alloc: Global,
    compiled: &Compiled<L::Program>,
    files: Listed<FileContent>,
) -> Result<Bytes, NoMemory>
    requires valid { IsPlan compiled.now.plan }
    requires known { HasSource L.stands compiled.now }
    requires contents { AreContents compiled.now.plan.inputs files }
    ensures { IfOk result (λ text. (source : SourceProgram) → IsCompiled L.stands source compiled.now → text ≡ printed source false files) }
{
    let outcome = L::mean(alloc, compiled, files)?;
    print_outcome(alloc, &compiled.plan, &outcome, false)
}
