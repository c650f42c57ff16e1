// The words of the command line.
ghost use Rattle.std.specs.Prelude.{◌≡◌, Some, None, IfOk, IsErrOf};
ghost use Rattle.command_line.specs.Words.{lang_named, is_file};
ghost use Rattle.command_line.specs.Sentences.{plain, with_words, asked_load, asked_two, asked_upgrade, asked_other, asked_free, command_of};

use crate::command::{Command, FreeWords, InWords, Lang, RunWords, WordFault};
use crate::number::read_number;
use crate::phrases::read_phrases;
use river_base::{NoMemory, Text};
use std::alloc::Global;

/// The command that the words ask for. A sentence is `load N`, with N from 1 to 100,000; or `upgrade FILE`; or `run LANG FILE`,
/// `mean LANG FILE`, `plan LANG FILE` or `free FILE`, and behind it, in any order, what the command takes: `run`, `mean` and `free` take
/// words NAME=FILE and `-H`, `run` and `free` `-w N` with N from 1 to 64, `run` in its place also `-L`, and `-c` and `-q N` with N from 1
/// to 65,536, `free` also `-s N` with N from 0 to 999,999,999, and `run` and `plan` take `-r SCRIPT`. FILE behind `upgrade`, `free` or the
/// language is not empty and does not begin with `-`; no option and no NAME stands twice. A number has 1 to 9 decimal digits.
pub fn read_words(alloc: Global, words: &[Text]) -> Result<Command, WordFault>
    ensures ok { IfOk result (λ command. command_of words.now ≡ Some command) }
    ensures usage { IsErrOf result WordFault.Usage → command_of words.now ≡ None }
{
    let [word, second, behind @ ..] = words else {
        return Err(WordFault::Usage);
    };
    let word = word.as_slice();
    if word == FREE {
        read_free(alloc, second.as_slice(), behind)
    } else {
        read_other(alloc, word, second.as_slice(), behind)
    }
}

// `free FILE` and what stands behind it.
fn read_free(alloc: Global, file: &[u8], behind: &[Text]) -> Result<Command, WordFault>
    ensures ok { IfOk result (λ command. asked_free file.now behind.now ≡ Some command) }
    ensures usage { IsErrOf result WordFault.Usage → asked_free file.now behind.now ≡ None }
{
    if !is_file(file) {
        return Err(WordFault::Usage);
    }
    let mut command = Command::Free(FreeWords::new(alloc, Text::from_slice(alloc, file)?));
    read_phrases(alloc, behind, &mut command)?;
    Ok(command)
}

// Words of which the first is not `free`.
fn read_other(
    alloc: Global,
    word: &[u8],
    second: &[u8],
    behind: &[Text],
) -> Result<Command, WordFault>
    ensures ok { IfOk result (λ command. asked_other word.now second.now behind.now ≡ Some command) }
    ensures usage { IsErrOf result WordFault.Usage → asked_other word.now second.now behind.now ≡ None }
{
    let [file, behind @ ..] = behind else {
        return read_two(alloc, word, second);
    };
    let Some(lang) = lang_named(second) else {
        return Err(WordFault::Usage);
    };
    if !is_file(file.as_slice()) {
        return Err(WordFault::Usage);
    }
    read_command(alloc, word, lang, file.as_slice(), behind)
}

// `load N` or `upgrade FILE`.
fn read_two(alloc: Global, word: &[u8], behind: &[u8]) -> Result<Command, WordFault>
    ensures ok { IfOk result (λ command. asked_two word.now behind.now ≡ Some command) }
    ensures usage { IsErrOf result WordFault.Usage → asked_two word.now behind.now ≡ None }
{
    if word == LOAD {
        read_load(word, behind)
    } else {
        read_upgrade(alloc, word, behind)
    }
}

// `upgrade FILE`.
fn read_upgrade(alloc: Global, word: &[u8], file: &[u8]) -> Result<Command, WordFault>
    ensures ok { IfOk result (λ command. asked_upgrade word.now file.now ≡ Some command) }
    ensures usage { IsErrOf result WordFault.Usage → asked_upgrade word.now file.now ≡ None }
{
    if word == UPGRADE && is_file(file) {
        let file = Text::from_slice(alloc, file)?;
        Ok(Command::Upgrade { file })
    } else {
        Err(WordFault::Usage)
    }
}

// `load N`.
fn read_load(word: &[u8], number: &[u8]) -> Result<Command, WordFault>
    ensures ok { IfOk result (λ command. asked_load word.now number.now ≡ Some command) }
    ensures usage { IsErrOf result WordFault.Usage → asked_load word.now number.now ≡ None }
{
    if word != LOAD {
        return Err(WordFault::Usage);
    }
    match read_number(number, MOST_RECORDS) {
        Some(number) => Ok(Command::Load { number }),
        None => Err(WordFault::Usage),
    }
}

// The command that a word names, with this program and what the words behind it say.
fn read_command(
    alloc: Global,
    word: &[u8],
    lang: Lang,
    file: &[u8],
    behind: &[Text],
) -> Result<Command, WordFault>
    ensures ok { IfOk result (λ command. with_words behind.now (plain word.now lang file.now) ≡ Some command) }
    ensures usage { IsErrOf result WordFault.Usage → with_words behind.now (plain word.now lang file.now) ≡ None }
{
    let Some(mut command) = plain(alloc, word, lang, file)? else {
        return Err(WordFault::Usage);
    };
    read_phrases(alloc, behind, &mut command)?;
    Ok(command)
}

const RUN: &[u8] = b"run";

const MEAN: &[u8] = b"mean";

const PLAN: &[u8] = b"plan";

const LOAD: &[u8] = b"load";

const UPGRADE: &[u8] = b"upgrade";

const FREE: &[u8] = b"free";

const MOST_RECORDS: u32 = 100_000;

const RIVER: &[u8] = b"river";

const STREAMIT: &[u8] = b"streamit";

const PARAMS: &[u8] = b"params";

const SAWZALL: &[u8] = b"sawzall";

const CQL: &[u8] = b"cql";

// The command that a word names, with a program and nothing else.
fn plain(alloc: Global, word: &[u8], lang: Lang, file: &[u8]) -> Result<Option<Command>, NoMemory>
    ensures { IfOk result (λ command. command ≡ plain word.now lang file.now) }
{
    let file = Text::from_slice(alloc, file)?;
    if word == RUN {
        Ok(Some(Command::Run(RunWords::new(alloc, lang, file))))
    } else if word == MEAN {
        Ok(Some(Command::Mean {
            lang,
            file,
            ins: InWords::new(alloc),
            header: false,
        }))
    } else if word == PLAN {
        Ok(Some(Command::Plan {
            lang,
            file,
            script: None,
        }))
    } else {
        Ok(None)
    }
}

fn lang_named(word: &[u8]) -> Option<Lang>
    ensures { result ≡ lang_named word.now }
{
    if word == RIVER {
        Some(Lang::River)
    } else if word == STREAMIT {
        Some(Lang::Streamit)
    } else if word == PARAMS {
        Some(Lang::Params)
    } else if word == SAWZALL {
        Some(Lang::Sawzall)
    } else if word == CQL {
        Some(Lang::Cql)
    } else {
        None
    }
}

// A word that is not empty and no option.
pub(crate) fn is_file(word: &[u8]) -> bool
    ensures { result ≡ is_file word.now }
{
    match word.first() {
        Some(&c) => c != b'-',
        None => false,
    }
}
