// Names with numbers behind them, and lists of names.
ghost use Rattle.std.specs.Prelude.{◌≡◌, ◌≤◌, ◌+◌, IsTrue, IfOk, length};
ghost use Rattle.river_base.specs.Name.{is_name};
ghost use Rattle.streamit_model.specs.Plan.{numbered, queue, queues};

use river_base::{Bytes, Name, NoMemory};
use river_plan::Names;
use std::alloc::Global;

/// A name with a number behind it.
pub(crate) fn numbered(alloc: Global, name: &[u8], number: u32) -> Result<Name, NoMemory>
    requires named { IsTrue (is_name name.now) }
    requires short { length name.now ≤ 40 }
    ensures { IfOk result (λ made. made ≡ numbered name.now number) }
{
    let text = text(alloc, name, number)?;
    Ok(Name::of(text.as_slice()))
}

// Its bytes.
fn text(alloc: Global, name: &[u8], number: u32) -> Result<Bytes, NoMemory>
    ensures { IfOk result (λ text. text ≡ numbered name.now number) }
{
    let mut bytes = Bytes::from_slice(alloc, name)?;
    bytes.extend(b"@")?;
    bytes.put_number(number)?;
    Ok(bytes)
}

/// The queue with a number.
#[tactic(auto, unfolding(river_base::specs::Name::is_word, river_base::specs::Name::is_letter, river_base::specs::Name::is_digit))]
pub(crate) fn queue(alloc: Global, number: u32) -> Result<Name, NoMemory>
    ensures { IfOk result (λ name. name ≡ queue number) }
{
    numbered(alloc, b"q", number)
}

/// So many queues, the first of which has this number.
pub(crate) fn queues(alloc: Global, first: u32, count: u32) -> Result<Names, NoMemory>
    ensures { IfOk result (λ names. names ≡ queues first count) }
{
    let mut names = Names::new(alloc);
    for i in 0..count {
        let number = sum(first, i)?;
        names.push(queue(alloc, number)?)?;
    }
    Ok(names)
}

/// The sum of two numbers; a plan has not so many parts that there is memory for it where this has no place.
pub(crate) fn sum(a: u32, b: u32) -> Result<u32, NoMemory>
    ensures { IfOk result (λ n. n ≡ a + b) }
{
    match a.checked_add(b) {
        Some(n) => Ok(n),
        None => Err(NoMemory),
    }
}
