// What is said of a file that could not be read.
ghost use Rattle.std.specs.Prelude.{◌≡◌, ◌++◌, IfOk, codes};
ghost use Rattle.river_outside.specs.Text.{failed_text, absent_text};

use river_base::{Bytes, NoMemory};
use std::alloc::Global;

/// A file failed.
pub(crate) fn failed(alloc: Global, file: &[u8]) -> Result<Bytes, NoMemory>
    ensures { IfOk result (λ text. text ≡ failed_text file.now) }
{
    line(alloc, b"fault: read ", file)
}

/// A file is not there.
pub(crate) fn absent(alloc: Global, file: &[u8]) -> Result<Bytes, NoMemory>
    ensures { IfOk result (λ text. text ≡ absent_text file.now) }
{
    line(alloc, b"fault: absent ", file)
}

fn line(alloc: Global, what: &[u8], file: &[u8]) -> Result<Bytes, NoMemory>
    ensures { IfOk result (λ text. text ≡ what.now ++ file.now ++ codes "\n") }
{
    let mut text = Bytes::from_slice(alloc, what)?;
    text.extend(file)?;
    text.push(b'\n')?;
    Ok(text)
}
