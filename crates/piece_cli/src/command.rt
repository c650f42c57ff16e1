// The words of the command line.
ghost use Rattle.std.specs.Prelude.{◌≡◌, None, Some, MatchOption};
ghost use Rattle.std.specs.Option.{option_map};
ghost use Rattle.std.specs.Prelude.{option_and_then};
ghost use Rattle.piece_cli.specs.Words.{input_of, keep_of, options_of, with_keep};
ghost use Rattle.piece_cli.specs.Sentences.{asked, asked_begin, asked_by, asked_next, asked_options, asked_print, folder_of, keep_asked, kept_by};

use crate::number::read_size;
use river_base::Text;

/// Where something is kept for the next call.
#[derive(Clone, Copy)]
pub enum Keeping<'a> {
    /// Nowhere.
    Nothing,
    /// In this folder.
    In(&'a [u8]),
}

// What stands behind the file.
#[derive(Clone, Copy)]
struct Options<'a> {
    header: bool,
    keep: Keeping<'a>,
}

/// What is to be done in a work folder.
#[derive(Clone, Copy)]
pub enum Command<'a> {
    /// A program is begun over a file, which is cut into pieces of at most so many records.
    Begin {
        folder: &'a [u8],
        /// 1 to 100,000.
        size: u32,
        program: &'a [u8],
        file: &'a [u8],
        header: bool,
        keep: Keeping<'a>,
    },
    /// What is next is done.
    Next {
        folder: &'a [u8],
        keep: Keeping<'a>,
    },
    /// What was made is printed.
    Print {
        folder: &'a [u8],
    },
}

const BEGIN: &[u8] = b"begin";

const NEXT: &[u8] = b"next";

const PRINT: &[u8] = b"print";

const SAWZALL: &[u8] = b"sawzall";

const HEADER: &[u8] = b"-H";

const KEEP: &[u8] = b"--keep";

/// What the words ask for: `begin DIR SIZE sawzall PROGRAM in=FILE`, perhaps with `-H` and `--keep FOLDER` behind it, `next DIR`,
/// perhaps with `--keep FOLDER` behind it, or `print DIR`. SIZE has 1 to 6 decimal digits and is from 1 to 100,000; FILE is not empty.
/// None where they are no such sentence.
pub fn command_of(words: &[Text]) -> Option<Command<'_>>
    ensures { option_map asked_by result ≡ asked words.now }
{
    let [word, behind @ ..] = words else {
        return None;
    };
    let word = word.as_slice();
    if word == BEGIN {
        begin_of(behind)
    } else if word == NEXT {
        next_of(behind)
    } else if word == PRINT {
        print_of(behind)
    } else {
        None
    }
}

/// The folder that the words name, where they are a sentence.
pub fn folder_of(words: &[Text]) -> Option<&[u8]>
    ensures { MatchOption result (asked words.now ≡ None) (λ folder. option_map folder_of (asked words.now) ≡ Some folder.now) }
{
    match command_of(words) {
        Some(Command::Begin { folder, .. }) => Some(folder),
        Some(Command::Next { folder, .. }) => Some(folder),
        Some(Command::Print { folder }) => Some(folder),
        None => None,
    }
}

/// The folder in which something is kept for the next call, where the words are a sentence that names one.
pub fn keep_of(words: &[Text]) -> Option<&[u8]>
    ensures { MatchOption result (option_and_then keep_asked (asked words.now) ≡ None) (λ folder. option_and_then keep_asked (asked words.now) ≡ Some folder.now) }
{
    match command_of(words) {
        Some(Command::Begin { keep, .. }) => folder_in(keep),
        Some(Command::Next { keep, .. }) => folder_in(keep),
        Some(Command::Print { .. }) => None,
        None => None,
    }
}

// The folder, if there is one.
fn folder_in(keep: Keeping<'_>) -> Option<&[u8]>
    ensures { MatchOption result (kept_by keep.entry ≡ None) (λ folder. kept_by keep.entry ≡ Some folder.now) }
{
    match keep {
        Keeping::Nothing => None,
        Keeping::In(folder) => Some(folder),
    }
}

// `DIR SIZE sawzall PROGRAM in=FILE`, and perhaps `-H` and `--keep FOLDER`.
fn begin_of(words: &[Text]) -> Option<Command<'_>>
    ensures { option_map asked_by result ≡ asked_begin words.now }
{
    let [folder, size, lang, program, input, behind @ ..] = words else {
        return None;
    };
    if lang.as_slice() != SAWZALL {
        return None;
    }
    let size = read_size(size.as_slice())?;
    let file = input_of(input.as_slice())?;
    let options = options_of(behind)?;
    Some(Command::Begin {
        folder: folder.as_slice(),
        size,
        program: program.as_slice(),
        file,
        header: options.header,
        keep: options.keep,
    })
}

// `DIR`, behind `next`, and perhaps `--keep FOLDER`.
fn next_of(words: &[Text]) -> Option<Command<'_>>
    ensures { option_map asked_by result ≡ asked_next words.now }
{
    let [folder, behind @ ..] = words else {
        return None;
    };
    let keep = kept_in(behind)?;
    Some(Command::Next {
        folder: folder.as_slice(),
        keep,
    })
}

// `DIR`, behind `print`.
fn print_of(words: &[Text]) -> Option<Command<'_>>
    ensures { option_map asked_by result ≡ asked_print words.now }
{
    match words {
        [folder] => Some(Command::Print {
            folder: folder.as_slice(),
        }),
        _ => None,
    }
}

// What stands behind `in=`.
fn input_of(word: &[u8]) -> Option<&[u8]>
    ensures { MatchOption result (input_of word.now ≡ None) (λ file. input_of word.now ≡ Some file.now) }
{
    match word {
        [b'i', b'n', b'=', file @ ..] if !file.is_empty() => Some(file),
        _ => None,
    }
}

// Perhaps `-H`, and perhaps `--keep FOLDER` behind it.
fn options_of(words: &[Text]) -> Option<Options<'_>>
    ensures { option_map asked_options result ≡ options_of words.now }
{
    match words {
        [word, behind @ ..] if word.as_slice() == HEADER => with_keep(true, behind),
        _ => with_keep(false, words),
    }
}

// Perhaps `--keep FOLDER`, where it is known whether there is a header.
fn with_keep(header: bool, words: &[Text]) -> Option<Options<'_>>
    ensures { option_map asked_options result ≡ with_keep header words.now }
{
    let keep = kept_in(words)?;
    Some(Options { header, keep })
}

// Whether `--keep FOLDER` stands there and nothing else, or nothing.
fn kept_in(words: &[Text]) -> Option<Keeping<'_>>
    ensures { option_map kept_by result ≡ keep_of words.now }
{
    match words {
        [] => Some(Keeping::Nothing),
        [word, folder] if word.as_slice() == KEEP => Some(Keeping::In(folder.as_slice())),
        _ => None,
    }
}
