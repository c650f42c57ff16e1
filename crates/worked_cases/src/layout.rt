// The files and the devices of a case, in memory.
ghost use Rattle.std.specs.Prelude.{◌≡◌};
ghost use Rattle.std.specs.List.{list_any};
ghost use Rattle.std.specs.Str.{bytes_eq};
ghost use Rattle.river_outside.specs.Memory.{distinct_names};

use crate::case::{Case, Device};
use crate::fault::CaseFault;
use river_base::{Bytes, NoMemory, Numbers};
use river_outside::{Files, MemShelf, MemSink};
use std::alloc::Global;

/// The files of a case.
pub(crate) fn shelf_of(alloc: Global, case: &Case) -> Result<MemShelf, CaseFault> {
    let fails = numbers_of(alloc, &case.reads.fails)?;
    let files = files_of(alloc, &case.files)?;
    if case.reads.piece == 0 || !have_distinct_names(files.as_slice()) {
        return Err(CaseFault::Line);
    }
    Ok(MemShelf::new(files, case.reads.piece, fails))
}

/// A sink that goes on as the device.
pub(crate) fn sink_of(alloc: Global, device: &Device) -> Result<MemSink, CaseFault> {
    if device.piece == 0 {
        return Err(CaseFault::Line);
    }
    let fails = numbers_of(alloc, &device.fails)?;
    Ok(MemSink::new(alloc, device.piece, fails, device.room)?)
}

fn numbers_of(alloc: Global, numbers: &Numbers) -> Result<Numbers, NoMemory> {
    let mut copy = Numbers::new(alloc);
    for &number in numbers.as_slice() {
        copy.push(number)?;
    }
    Ok(copy)
}

fn files_of(alloc: Global, files: &Files) -> Result<Files, NoMemory> {
    let mut copy = Files::new(alloc);
    for file in files.as_slice() {
        copy.push(file_of(alloc, file)?)?;
    }
    Ok(copy)
}

fn file_of(alloc: Global, file: &(Bytes, Bytes)) -> Result<(Bytes, Bytes), NoMemory> {
    let name = Bytes::from_slice(alloc, file.0.as_slice())?;
    let content = Bytes::from_slice(alloc, file.1.as_slice())?;
    Ok((name, content))
}

// Whether no two files have one name.
fn have_distinct_names(files: &[(Bytes, Bytes)]) -> bool
    ensures { result ≡ distinct_names files.now }
{
    match files {
        [] => true,
        [file, rest @ ..] => !is_among(file.0.as_slice(), rest) && have_distinct_names(rest),
    }
}

fn is_among(name: &[u8], files: &[(Bytes, Bytes)]) -> bool
    ensures { result ≡ list_any (λ other. bytes_eq name.now other.0) files.now }
{
    for other in files {
        if name == other.0.as_slice() {
            return true;
        }
    }
    false
}
