// The items of the inputs of a program.
ghost use Rattle.std.specs.Prelude.{◌≡◌, [], ◌∷◌, ◌++◌, map, IfOk, OnOk};
ghost use Rattle.river_base.specs.Instants.{stamps};
ghost use Rattle.river_road.specs.Inputs as inputs;

use crate::content::FileContent;
use brooklet_step::Lines;
use csv_streams::{add_stamps, spread};
use kern_rows::ItemLine;
use river_base::{Listed, NoMemory, Numbers};
use std::alloc::Global;

/// The items of each input.
pub fn inputs_of(alloc: Global, files: Listed<FileContent>) -> Result<Lines, NoMemory>
    ensures { IfOk result (λ all. all ≡ inputs.all_items files) }
{
    let instants = instants_of(alloc, files.as_slice())?;
    inputs_at(alloc, files, &instants)
}

// The instants of the run.
fn instants_of(alloc: Global, files: &[FileContent]) -> Result<Numbers, NoMemory>
    ensures { IfOk result (λ ts. ts ≡ inputs.instants_of files.now) }
{
    let mut stamps = Numbers::new(alloc);
    for place in 0..files.len() {
        add_stamps_of(&files[place], &mut stamps)?;
    }
    stamps.keep_each_once();
    Ok(stamps)
}

// Appends the timestamps of a file, if it has any.
fn add_stamps_of(file: &FileContent, all: &mut Numbers) -> Result<(), NoMemory>
    ensures { OnOk result (all.new ≡ all.old ++ stamps (inputs.timed_files (file.now ∷ []))) }
{
    match file {
        FileContent::Rows(_) => Ok(()),
        FileContent::Timed(rows) => add_stamps(rows, all),
    }
}

// The items of each input at these instants; what the files have is let go one after another.
fn inputs_at(
    alloc: Global,
    files: Listed<FileContent>,
    instants: &Numbers,
) -> Result<Lines, NoMemory>
    ensures { IfOk result (λ all. all ≡ map (inputs.items_at instants.now) files) }
{
    let mut all = Lines::new(alloc);
    for file in files.into_vec() {
        all.push(items_at(alloc, file, instants)?)?;
    }
    Ok(all)
}

// The items of an input: its rows, or a batch of its rows for each instant.
fn items_at(alloc: Global, file: FileContent, instants: &Numbers) -> Result<ItemLine, NoMemory>
    ensures { IfOk result (λ items. items ≡ inputs.items_at instants.now file) }
{
    match file {
        FileContent::Rows(rows) => Ok(ItemLine::from_rows(alloc, rows)),
        FileContent::Timed(rows) => Ok(ItemLine::from_items(
            alloc,
            spread(alloc, &rows, instants)?,
        )),
    }
}
