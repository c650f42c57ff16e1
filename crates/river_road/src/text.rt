// The texts that are written besides the output of a program.
ghost use Rattle.std.specs.Prelude.{◌≡◌, ◌++◌, codes, IfOk, OnOk};
ghost use Rattle.csv_streams.specs.FaultWords.{in_words};
ghost use Rattle.river_road.specs.Text.{program_refused, script_refused, input_refused, large_input, unknown_input, missing_input};

use csv_streams::InFault;
use river_base::{Bytes, NoMemory};
use std::alloc::Global;
use text_forms::{Told, words};

/// What refuses a program of too many bytes.
pub(crate) const LARGE_PROGRAM: &[u8] = b"refused: program: Large\n";

/// What refuses a script of too many bytes.
pub(crate) const LARGE_SCRIPT: &[u8] = b"refused: script: Large\n";

/// What refuses a program.
pub fn program<F: Told>(alloc: Global, fault: F) -> Result<Bytes, NoMemory>
    ensures { IfOk result (λ text. text ≡ program_refused (F.told fault)) }
{
    let words = words(alloc, fault)?;
    refusal(alloc, b"refused: program: ", words.as_slice())
}

/// What refuses a script.
pub(crate) fn script<F: Told>(alloc: Global, fault: F) -> Result<Bytes, NoMemory>
    ensures { IfOk result (λ text. text ≡ script_refused (F.told fault)) }
{
    let words = words(alloc, fault)?;
    refusal(alloc, b"refused: ", words.as_slice())
}

// What is refused, and why, in a line.
fn refusal(alloc: Global, what: &[u8], words: &[u8]) -> Result<Bytes, NoMemory>
    ensures { IfOk result (λ text. text ≡ what.now ++ (words.now ++ codes "\n")) }
{
    let mut text = Bytes::from_slice(alloc, what)?;
    end_with(&mut text, words)?;
    Ok(text)
}

// The words come to the text, and end its line.
fn end_with(text: &mut Bytes, words: &[u8]) -> Result<(), NoMemory>
    ensures { OnOk result (text.new ≡ text.old ++ (words.now ++ codes "\n")) }
{
    text.extend(words)?;
    text.push(b'\n')
}

// An input is refused, and why.
fn input(alloc: Global, name: &[u8], words: &[u8]) -> Result<Bytes, NoMemory>
    ensures { IfOk result (λ text. text ≡ input_refused name.now words.now) }
{
    let mut text = Bytes::from_slice(alloc, b"refused: input ")?;
    text.extend(name)?;
    text.extend(b": ")?;
    end_with(&mut text, words)?;
    Ok(text)
}

/// An input has too many bytes.
pub(crate) fn large(alloc: Global, name: &[u8]) -> Result<Bytes, NoMemory>
    ensures { IfOk result (λ text. text ≡ large_input name.now) }
{
    input(alloc, name, b"Large")
}

/// No input of the program has this name.
pub(crate) fn unknown(alloc: Global, name: &[u8]) -> Result<Bytes, NoMemory>
    ensures { IfOk result (λ text. text ≡ unknown_input name.now) }
{
    input(alloc, name, b"Unknown")
}

/// No word names this input.
pub(crate) fn missing(alloc: Global, name: &[u8]) -> Result<Bytes, NoMemory>
    ensures { IfOk result (λ text. text ≡ missing_input name.now) }
{
    input(alloc, name, b"Missing")
}

/// What is told of the first record at fault of an input.
pub(crate) fn in_fault(alloc: Global, name: &[u8], fault: InFault) -> Result<Bytes, NoMemory>
    ensures { IfOk result (λ text. text ≡ input_refused name.now (in_words fault)) }
{
    let words = fault.words(alloc)?;
    input(alloc, name, words.as_slice())
}
