// The records of inputs, as the slow meanings take them.
ghost use Rattle.std.specs.Prelude.{◌≡◌, [], ◌∷◌, ◌++◌, IfOk, OnOk};
ghost use Rattle.river_road.specs.Inputs as inputs;
ghost use Rattle.river_langs.specs.Sources.{first_of_rows, records};

use kern_rows::EvenRows;
use river_base::{Listed, NoMemory, Numbers, Rows, TimedFiles};
use river_road::FileContent;
use std::alloc::Global;

/// The rows of the first input.
pub(crate) fn rows_of(alloc: Global, files: Listed<FileContent>) -> EvenRows
    ensures { result ≡ records files }
{
    match files.into_vec().into_iter().next() {
        Some(FileContent::Rows(rows)) => rows,
        _ => EvenRows::new(alloc),
    }
}

/// The first value of each row.
pub(crate) fn values_of(alloc: Global, mut rows: EvenRows) -> Result<Numbers, NoMemory>
    ensures { IfOk result (λ all. all ≡ first_of_rows rows) }
{
    let mut all = Numbers::new(alloc);
    while let Some(row) = rows.pop() {
        all.push(row.values()[0])?;
    }
    Ok(all)
}

/// The rows one by one.
pub(crate) fn listed(alloc: Global, mut rows: EvenRows) -> Result<Rows, NoMemory>
    ensures { IfOk result (λ all. all ≡ rows) }
{
    let mut all = Rows::new(alloc);
    while let Some(row) = rows.pop() {
        all.push(row)?;
    }
    Ok(all)
}

/// The rows of the files whose rows have timestamps.
pub(crate) fn timed_files_of(
    alloc: Global,
    files: Listed<FileContent>,
) -> Result<TimedFiles, NoMemory>
    ensures { IfOk result (λ all. all ≡ inputs.timed_files files) }
{
    let mut all = TimedFiles::new(alloc);
    for file in files.into_vec() {
        add_timed(file, &mut all)?;
    }
    Ok(all)
}

// A file comes to the others, if its rows have timestamps.
fn add_timed(file: FileContent, all: &mut TimedFiles) -> Result<(), NoMemory>
    ensures { OnOk result (all.new ≡ all.old ++ inputs.timed_files (file ∷ [])) }
{
    match file {
        FileContent::Rows(_) => Ok(()),
        FileContent::Timed(rows) => {
            all.push(rows)?;
            Ok(())
        }
    }
}
