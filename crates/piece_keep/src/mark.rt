// What is written of what is kept.
ghost use Rattle.std.specs.Prelude.{◌≡◌, ◌++◌, List, ℕ, codes, IfOk, OnOk};
ghost use Rattle.std.specs.Fmt.{decimal};
ghost use Rattle.hex.specs.Hex.{encode_lower};
ghost use Rattle.sha2.specs.Hashers.{Holds256};
ghost use Rattle.piece_keep.specs.Mark.{front_text, header_word, mark_text, sum_of};

use crate::Extent;
use hex::encode;
use river_base::{Bytes, NoMemory};
use sha2::{Digest, Sha256};
use std::alloc::Global;

/// How far the file was read, whether it begins with a header, and the sums of what was read of it and of the program. A hasher
/// that was fed with what was read gives the first of them.
pub fn mark_front(
    alloc: Global,
    extent: Extent,
    header: bool,
    front: Sha256,
    program: &[u8],
) -> Result<Bytes, NoMemory>
    ensures { IfOk result (λ text. (bytes : List ℕ) → Holds256 front bytes → text ≡ front_text extent.at extent.records header bytes program.now) }
{
    let mut text = Bytes::new(alloc);
    put_extent(extent, &mut text)?;
    add_header(header, &mut text)?;
    let digest = front.finalize();
    add_digest(alloc, digest.as_slice(), &mut text)?;
    text.push(b' ')?;
    add_sum(alloc, program, &mut text)?;
    text.push(b' ')?;
    Ok(text)
}

/// The same, with the sum of what is kept behind it.
pub fn whole_mark(alloc: Global, front: &[u8], kept: &[u8]) -> Result<Bytes, NoMemory>
    ensures { IfOk result (λ text. text ≡ front.now ++ (sum_of kept.now ++ codes "\n")) }
{
    let mut text = Bytes::from_slice(alloc, front)?;
    add_sum(alloc, kept, &mut text)?;
    text.push(b'\n')?;
    Ok(text)
}

// Appends both numbers.
fn put_extent(extent: Extent, to: &mut Bytes) -> Result<(), NoMemory>
    ensures { OnOk result (to.new ≡ to.old ++ (decimal extent.at ++ (codes " " ++ decimal extent.records))) }
{
    to.put_number(extent.at)?;
    to.push(b' ')?;
    to.put_number(extent.records)
}

fn add_header(header: bool, to: &mut Bytes) -> Result<(), NoMemory>
    ensures { OnOk result (to.new ≡ to.old ++ header_word header) }
{
    if header {
        to.extend(b" -H ")
    } else {
        to.extend(b" ")
    }
}

// Appends the sum of bytes.
fn add_sum(alloc: Global, bytes: &[u8], to: &mut Bytes) -> Result<(), NoMemory>
    ensures { OnOk result (to.new ≡ to.old ++ sum_of bytes.now) }
{
    let digest = Sha256::digest(bytes);
    add_digest(alloc, digest.as_slice(), to)
}

// Appends bytes in hexadecimal digits.
fn add_digest(alloc: Global, digest: &[u8], to: &mut Bytes) -> Result<(), NoMemory>
    ensures { OnOk result (to.new ≡ to.old ++ encode_lower digest.now) }
{
    let sum = encode(alloc, digest)?;
    to.extend(sum.as_bytes())
}
