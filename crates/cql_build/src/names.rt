// The names that a plan makes: of a stream or query and behind it, after an `@`, what they are for.
ghost use Rattle.std.specs.Prelude.{◌≡◌, ◌≤◌, ◌<◌, ◌^◌, ◌++◌, IsTrue, IfOk, OnOk, length};
ghost use Rattle.std.specs.Fmt.{decimal};
ghost use Rattle.river_base.specs.Name.{is_name};
ghost use Rattle.cql_build.specs.Marks.{word, name_marked, IsLowMark};

use river_base::{Bytes, Name, NoMemory};
use std::alloc::Global;

/// What a made name is for.
#[derive(Clone, Copy)]
pub(crate) enum Mark {
    /// A window, by its item's number, from 1.
    Window(usize),
    /// A product, by the number of its second item.
    Cross(usize),
    /// A copy of a stream, by its number, from 1.
    Copy(usize),
    /// The rows that a condition lets pass.
    Select,
    /// The columns.
    Project,
    /// What makes a stream of a relation.
    Stream,
    /// A stream that is copied.
    Output,
    /// What copies a stream.
    Copies,
}

/// The name for this mark.
pub(crate) fn marked(alloc: Global, base: Name, mark: Mark) -> Result<Name, NoMemory>
    requires { length base ≤ 40 }
    ensures { IfOk result (λ name. name ≡ name_marked base mark) }
{
    let text = text(alloc, base, mark)?;
    Ok(Name::of(text.as_slice()))
}

// Its bytes.
fn text(alloc: Global, base: Name, mark: Mark) -> Result<Bytes, NoMemory>
    ensures is { IfOk result (λ text. text ≡ name_marked base mark) }
    ensures named { OnOk result (IsTrue (is_name base)) }
    ensures low { OnOk result (IsLowMark mark) }
{
    let mut bytes = Bytes::from_slice(alloc, base.as_slice())?;
    bytes.extend(b"@")?;
    put_mark(mark, &mut bytes)?;
    Ok(bytes)
}

// Appends the word of a mark.
#[tactic(auto, using(cql_model::proofs::Numerals::numeral_decimal))]
fn put_mark(mark: Mark, to: &mut Bytes) -> Result<(), NoMemory>
    ensures put { OnOk result (to.new ≡ to.old ++ word mark) }
    ensures low { OnOk result (IsLowMark mark) }
{
    match mark {
        Mark::Window(number) => put_number(b"w", number, to),
        Mark::Cross(number) => put_number(b"x", number, to),
        Mark::Copy(number) => put_number(b"", number, to),
        Mark::Select => to.extend(b"s"),
        Mark::Project => to.extend(b"p"),
        Mark::Stream => to.extend(b"i"),
        Mark::Output => to.extend(b"o"),
        Mark::Copies => to.extend(b"d"),
    }
}

/// Appends a letter, or none, and a number.
pub(crate) fn put_number(letter: &[u8], number: usize, to: &mut Bytes) -> Result<(), NoMemory>
    ensures put { OnOk result (to.new ≡ to.old ++ (letter.now ++ decimal number)) }
    ensures low { number < 2 ^ 64 }
{
    to.extend(letter)?;
    to.put_number(number)
}
