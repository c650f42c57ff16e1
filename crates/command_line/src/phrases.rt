// What stands behind a program's file: options and words NAME=FILE, in any order.
ghost use Rattle.std.specs.Prelude.{◌≡◌, ◌≤◌, ◌<◌, ◌+◌, ◌-◌, ◌^◌, [], length, take, drop, Some, None, IfOk, OnOk, IsErrOf, IsSome, IfSome, codes};
ghost use Rattle.command_line.specs.Limits.{most_workers, most_cap, most_start};
ghost use Rattle.command_line.specs.Words.{name_part, rest_part, in_word_of};
ghost use Rattle.command_line.specs.Commands.{with_header, with_counts, with_workers, with_cap, with_start, with_tasks};
ghost use Rattle.command_line.specs.Phrases.{phrase_of, phrases, with_phrases, option, number_ahead, zero_ahead, with_number, input as input_phrase, script as script_phrase};
ghost use Rattle.command_line.specs.Said.{said_fitting, with_phrase};

use crate::bounds::{Capacity, Workers};
use crate::command::{Command, InWord, WordFault};
use crate::number::{read_from_zero, read_number};
use crate::word_set::WordSet;
use crate::words::is_file;
use river_base::{MOST_CAPACITY, NoMemory, Text};
use std::alloc::Global;

/// Adds to a command what the words behind its file say, if they are phrases that it takes, of which none stands twice.
pub(crate) fn read_phrases(
    alloc: Global,
    words: &[Text],
    command: &mut Command,
) -> Result<(), WordFault>
    ensures ok { OnOk result (with_phrases command.old (phrases 0 words.now) ≡ Some command.new) }
    ensures usage { IsErrOf result WordFault.Usage → with_phrases command.old (phrases 0 words.now) ≡ None }
{
    let mut said = WordSet::new(alloc);
    read_all(alloc, words, command, &mut said)
}

// All phrases, where nothing was said before.
fn read_all(
    alloc: Global,
    words: &[Text],
    command: &mut Command,
    said: &mut WordSet,
) -> Result<(), WordFault>
    requires { said.old ≡ [] }
    ensures ok { OnOk result (with_phrases command.old (phrases 0 words.now) ≡ Some command.new) }
    ensures usage { IsErrOf result WordFault.Usage → with_phrases command.old (phrases 0 words.now) ≡ None }
{
    let mut rest = words;
    while !rest.is_empty() {
        let taken = read_phrase(alloc, rest, command, said)?;
        rest = behind(rest, 1 + taken);
    }
    Ok(())
}

// The words behind the first ones.
fn behind(words: &[Text], first: usize) -> &[Text]
    requires { first ≤ length words.now }
    ensures { result.now ≡ drop first words.now }
{
    &words[first..]
}

const HEADER: &[u8] = b"-H";

const COUNTS: &[u8] = b"-c";

const SCRIPT: &[u8] = b"-r";

const WORKERS: &[u8] = b"-w";

const CAP: &[u8] = b"-q";

const START: &[u8] = b"-s";

const TASKS: &[u8] = b"-L";

const MOST_WORKERS: u32 = 64;

const MOST_START: u32 = 999_999_999;

// The phrase that the words begin with; answers how many words it takes behind its first.
fn read_phrase(
    alloc: Global,
    words: &[Text],
    command: &mut Command,
    said: &mut WordSet,
) -> Result<usize, WordFault>
    ensures few { IfOk result (λ takes. takes ≤ 1) }
    ensures within { IfOk result (λ takes. takes + 1 ≤ length words.now) }
    ensures ok { IfOk result (λ takes. with_phrase (phrase_of words.now) said.old command.old
        ≡ Some (record { takes = takes; said = said.new; command = command.new })) }
    ensures usage { IsErrOf result WordFault.Usage → with_phrase (phrase_of words.now) said.old command.old ≡ None }
{
    let [word, behind @ ..] = words else {
        return Err(WordFault::Usage);
    };
    let word = word.as_slice();
    if word == HEADER {
        add_header(alloc, word, command, said)?;
        Ok(0)
    } else if word == COUNTS {
        add_counts(alloc, word, command, said)?;
        Ok(0)
    } else if word == SCRIPT {
        add_script(alloc, behind, command, said)?;
        Ok(1)
    } else if word == WORKERS {
        add_workers(alloc, word, behind, command, said)?;
        Ok(1)
    } else if word == CAP {
        add_cap(alloc, word, behind, command, said)?;
        Ok(1)
    } else if word == START {
        add_start(alloc, word, behind, command, said)?;
        Ok(1)
    } else if word == TASKS {
        add_tasks(alloc, command, said)?;
        Ok(0)
    } else if is_file(word) {
        add_input(alloc, word, command, said)?;
        Ok(0)
    } else {
        Err(WordFault::Usage)
    }
}

// Each input begins with a header.
#[tactic(auto, using(crate::proofs::ReadOn::noted, crate::proofs::ReadOn::not_noted))]
fn add_header(
    alloc: Global,
    word: &[u8],
    command: &mut Command,
    said: &mut WordSet,
) -> Result<(), WordFault>
    ensures ok { OnOk result (with_phrase (option word.now with_header) said.old command.old
        ≡ Some (record { takes = 0; said = said.new; command = command.new })) }
    ensures usage { IsErrOf result WordFault.Usage → with_phrase (option word.now with_header) said.old command.old ≡ None }
{
    let fits = command.set_header();
    once(alloc, word, fits, said)
}

// Firings are counted.
#[tactic(auto, using(crate::proofs::ReadOn::noted, crate::proofs::ReadOn::not_noted))]
fn add_counts(
    alloc: Global,
    word: &[u8],
    command: &mut Command,
    said: &mut WordSet,
) -> Result<(), WordFault>
    ensures ok { OnOk result (with_phrase (option word.now with_counts) said.old command.old
        ≡ Some (record { takes = 0; said = said.new; command = command.new })) }
    ensures usage { IsErrOf result WordFault.Usage → with_phrase (option word.now with_counts) said.old command.old ≡ None }
{
    let fits = command.set_counts();
    once(alloc, word, fits, said)
}

// The file of a script, which is the next word.
#[tactic(auto, using(crate::proofs::ReadOn::noted, crate::proofs::ReadOn::not_noted))]
fn add_script(
    alloc: Global,
    behind: &[Text],
    command: &mut Command,
    said: &mut WordSet,
) -> Result<(), WordFault>
    ensures within { OnOk result (1 ≤ length behind.now) }
    ensures ok { OnOk result (with_phrase (script_phrase behind.now) said.old command.old
        ≡ Some (record { takes = 1; said = said.new; command = command.new })) }
    ensures usage { IsErrOf result WordFault.Usage → with_phrase (script_phrase behind.now) said.old command.old ≡ None }
{
    let [file, ..] = behind else {
        return Err(WordFault::Usage);
    };
    if file.is_empty() {
        return Err(WordFault::Usage);
    }
    let fits = command.set_script(Text::from_slice(alloc, file.as_slice())?);
    once(alloc, SCRIPT, fits, said)
}

// How many workers there are, which the next word says.
#[tactic(auto, using(crate::proofs::ReadOn::noted, crate::proofs::ReadOn::not_noted))]
fn add_workers(
    alloc: Global,
    word: &[u8],
    behind: &[Text],
    command: &mut Command,
    said: &mut WordSet,
) -> Result<(), WordFault>
    ensures within { OnOk result (1 ≤ length behind.now) }
    ensures ok { OnOk result (with_phrase (with_number word.now with_workers (number_ahead most_workers behind.now)) said.old command.old
        ≡ Some (record { takes = 1; said = said.new; command = command.new })) }
    ensures usage { IsErrOf result WordFault.Usage → with_phrase (with_number word.now with_workers (number_ahead most_workers behind.now)) said.old command.old ≡ None }
{
    let Some(number) = number_ahead(behind, MOST_WORKERS) else {
        return Err(WordFault::Usage);
    };
    let fits = command.set_workers(Workers::new(number));
    once(alloc, word, fits, said)
}

// How many items a queue between two operators holds at most, which the next word says.
#[tactic(auto, using(crate::proofs::ReadOn::noted, crate::proofs::ReadOn::not_noted))]
fn add_cap(
    alloc: Global,
    word: &[u8],
    behind: &[Text],
    command: &mut Command,
    said: &mut WordSet,
) -> Result<(), WordFault>
    ensures within { OnOk result (1 ≤ length behind.now) }
    ensures ok { OnOk result (with_phrase (with_number word.now with_cap (number_ahead most_cap behind.now)) said.old command.old
        ≡ Some (record { takes = 1; said = said.new; command = command.new })) }
    ensures usage { IsErrOf result WordFault.Usage
        → with_phrase (with_number word.now with_cap (number_ahead most_cap behind.now)) said.old command.old ≡ None }
{
    let Some(number) = number_ahead(behind, MOST_CAPACITY) else {
        return Err(WordFault::Usage);
    };
    let fits = command.set_cap(Capacity::new(number));
    once(alloc, word, fits, said)
}

// The number with which the picks begin, which the next word says.
#[tactic(auto, using(crate::proofs::ReadOn::noted, crate::proofs::ReadOn::not_noted))]
fn add_start(
    alloc: Global,
    word: &[u8],
    behind: &[Text],
    command: &mut Command,
    said: &mut WordSet,
) -> Result<(), WordFault>
    ensures within { OnOk result (1 ≤ length behind.now) }
    ensures ok { OnOk result (with_phrase (with_number word.now with_start (zero_ahead most_start behind.now)) said.old command.old
        ≡ Some (record { takes = 1; said = said.new; command = command.new })) }
    ensures usage { IsErrOf result WordFault.Usage
        → with_phrase (with_number word.now with_start (zero_ahead most_start behind.now)) said.old command.old ≡ None }
{
    let Some(number) = zero_ahead(behind, MOST_START) else {
        return Err(WordFault::Usage);
    };
    let fits = command.set_start(number);
    once(alloc, word, fits, said)
}

// The number that the next word writes, if it is from 0 to `most`.
fn zero_ahead(words: &[Text], most: u32) -> Option<u32>
    requires { most < 2 ^ 32 - 1 }
    ensures within { IsSome result → 1 ≤ length words.now }
    ensures number { result ≡ zero_ahead most words.now }
{
    match words {
        [word, ..] => read_from_zero(word.as_slice(), most),
        [] => None,
    }
}

// The plan is run by tasks that wait. It stands in the place of a number of workers.
#[tactic(auto, using(crate::proofs::ReadOn::noted, crate::proofs::ReadOn::not_noted))]
fn add_tasks(alloc: Global, command: &mut Command, said: &mut WordSet) -> Result<(), WordFault>
    ensures ok { OnOk result (with_phrase (option (codes "-w") with_tasks) said.old command.old
        ≡ Some (record { takes = 0; said = said.new; command = command.new })) }
    ensures usage { IsErrOf result WordFault.Usage → with_phrase (option (codes "-w") with_tasks) said.old command.old ≡ None }
{
    let fits = command.set_tasks();
    once(alloc, WORKERS, fits, said)
}

// The number that the next word writes, if it is from 1 to `most`.
fn number_ahead(words: &[Text], most: u32) -> Option<u32>
    requires { most < 2 ^ 32 - 1 }
    ensures within { IsSome result → 1 ≤ length words.now }
    ensures bounds { IfSome result (λ number. (1 ≤ number) × (number ≤ most)) }
    ensures number { result ≡ number_ahead most words.now }
{
    match words {
        [word, ..] => read_number(word.as_slice(), most),
        [] => None,
    }
}

// The file of an input.
#[tactic(auto, using(crate::proofs::ReadOn::noted, crate::proofs::ReadOn::not_noted))]
fn add_input(
    alloc: Global,
    word: &[u8],
    command: &mut Command,
    said: &mut WordSet,
) -> Result<(), WordFault>
    ensures ok { OnOk result (with_phrase (input_phrase (in_word_of word.now)) said.old command.old
        ≡ Some (record { takes = 0; said = said.new; command = command.new })) }
    ensures usage { IsErrOf result WordFault.Usage → with_phrase (input_phrase (in_word_of word.now)) said.old command.old ≡ None }
{
    let Some(input) = read_in_word(alloc, word)? else {
        return Err(WordFault::Usage);
    };
    let name = Text::from_slice(alloc, input.name.as_slice())?;
    let fits = command.add_input(input)?;
    once(alloc, name.as_slice(), fits, said)
}

// Notes what a phrase may have but once, if the command takes the phrase and it was not there before.
fn once(alloc: Global, key: &[u8], fits: bool, said: &mut WordSet) -> Result<(), WordFault>
    ensures ok { OnOk result (said_fitting fits key.now said.old ≡ Some said.new) }
    ensures usage { IsErrOf result WordFault.Usage → said_fitting fits key.now said.old ≡ None }
{
    if !fits || !said.insert(Text::from_slice(alloc, key)?)? {
        return Err(WordFault::Usage);
    }
    Ok(())
}

// A word cut at its first `=`; None where there is none, or one of its parts is empty.
fn read_in_word(alloc: Global, word: &[u8]) -> Result<Option<InWord>, NoMemory>
    ensures { IfOk result (λ input. input ≡ in_word_of word.now) }
{
    let at = name_len(word);
    if at == 0 || at + 1 >= word.len() {
        return Ok(None);
    }
    let name = Text::from_slice(alloc, &word[..at])?;
    let file = Text::from_slice(alloc, &word[at + 1..])?;
    Ok(Some(InWord { name, file }))
}

// Where the first `=` of a word stands, or its length.
fn name_len(word: &[u8]) -> usize
    ensures name { take result word.now ≡ name_part word.now }
    ensures rest { drop result word.now ≡ rest_part word.now }
    ensures within { result ≤ length word.now }
{
    let mut at = 0;
    while at < word.len() && word[at] != b'=' {
        at += 1;
    }
    at
}
