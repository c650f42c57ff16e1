// What the words of the command line ask for.
ghost use Rattle.std.specs.Prelude.{◌≡◌, IfOk};
ghost use Rattle.command_line.specs.Commands.{MayMake, with_header, with_counts, with_script, with_workers, with_tasks, with_cap, with_start, with_input, if_by_tasks, live_words};
ghost use Rattle.command_line.specs.Sentences.{plain_run, plain_free};

use crate::bounds::{Capacity, Workers};
use river_base::{Listed, NoMemory, Text};
use std::alloc::Global;

/// A source language.
#[derive(Clone, Copy)]
pub enum Lang {
    /// River text.
    River,
    /// StreamIt.
    Streamit,
    /// StreamIt with parameters.
    Params,
    /// Sawzall.
    Sawzall,
    /// CQL.
    Cql,
}

/// A word NAME=FILE: the input of this name is the file.
#[derive(Drop)]
pub struct InWord {
    /// The name of the input.
    pub name: Text,
    /// The name of the file.
    pub file: Text,
}

/// Words NAME=FILE, in their order.
pub type InWords = Listed<InWord>;

/// Who runs a plan.
#[derive(Clone, Copy)]
pub enum RunBy {
    /// `-w N`: so many workers.
    Workers(Workers),
    /// `-L`: a task for each operator, which waits where it has nothing to do.
    Tasks,
}

/// The words of `run`.
#[derive(Drop)]
pub struct RunWords {
    /// The language of the program.
    pub lang: Lang,
    /// The name of the program's file.
    pub file: Text,
    /// The inputs, in the order of the words.
    pub ins: InWords,
    /// `-r SCRIPT`: the plan is rewritten by the script of this file.
    pub script: Option<Text>,
    /// `-w N` or `-L`: who runs the plan.
    pub by: RunBy,
    /// `-q N`: how many items a queue between two operators holds at most.
    pub cap: Capacity,
    /// `-H`: each input begins with a header.
    pub header: bool,
    /// `-c`: the firings of each operator are printed too.
    pub counts: bool,
}

impl RunWords {
    // Those with nothing behind the program's file.
    pub(crate) fn new(alloc: Global, lang: Lang, file: Text) -> RunWords
        ensures { result ≡ plain_run lang file }
    {
        RunWords {
            lang,
            file,
            ins: InWords::new(alloc),
            script: None,
            by: RunBy::Workers(Workers::new(1)),
            cap: Capacity::new(64),
            header: false,
            counts: false,
        }
    }

    // These words, if the run is by tasks that wait.
    fn if_by_tasks(self) -> Option<RunWords>
        ensures { result ≡ if_by_tasks self.by self }
    {
        match self.by {
            RunBy::Workers(_) => None,
            RunBy::Tasks => Some(self),
        }
    }
}

/// The words of `free`.
#[derive(Drop)]
pub struct FreeWords {
    /// The name of the program's file.
    pub file: Text,
    /// The inputs, in the order of the words.
    pub ins: InWords,
    /// `-w N`: how many firings a round has at most.
    pub workers: Workers,
    /// `-s N`: the number with which the picks begin.
    pub start: u32,
    /// `-H`: each input begins with a header.
    pub header: bool,
}

impl FreeWords {
    // Those with nothing behind the program's file.
    pub(crate) fn new(alloc: Global, file: Text) -> FreeWords
        ensures { result ≡ plain_free file }
    {
        FreeWords {
            file,
            ins: InWords::new(alloc),
            workers: Workers::new(1),
            start: 0,
            header: false,
        }
    }
}

/// What the words ask for.
#[derive(Drop)]
pub enum Command {
    /// `run`: a program is compiled and run over its inputs, and its outputs are printed.
    Run(RunWords),
    /// `plan`: it is compiled, and its plan and the lock classes of its tables are printed.
    Plan {
        /// The language of the program.
        lang: Lang,
        /// The name of the program's file.
        file: Text,
        /// `-r SCRIPT`: the plan is rewritten by the script of this file.
        script: Option<Text>,
    },
    /// `mean`: its slow meaning over its inputs is printed.
    Mean {
        /// The language of the program.
        lang: Lang,
        /// The name of the program's file.
        file: Text,
        /// The inputs, in the order of the words.
        ins: InWords,
        /// `-H`: each input begins with a header.
        header: bool,
    },
    /// `upgrade`: a River text is read, checked and printed as text of version 2.
    Upgrade {
        /// The name of the text's file.
        file: Text,
    },
    /// `load`: a program of its own is run over so many records that are made, and its tables are printed.
    Load {
        /// How many records.
        number: u32,
    },
    /// `free`: a free program is run over its inputs, and its outputs, its cells and its journal are printed.
    Free(FreeWords),
}

impl Command {
    /// The words of a run by tasks that wait; None where the command is another.
    pub fn into_live(self) -> Option<RunWords>
        ensures { result ≡ live_words self }
    {
        match self {
            Command::Run(words) => words.if_by_tasks(),
            Command::Mean { .. }
            | Command::Plan { .. }
            | Command::Upgrade { .. }
            | Command::Load { .. }
            | Command::Free(_) => None,
        }
    }

    /// Notes that each input begins with a header, if the command reads inputs.
    pub(crate) fn set_header(&mut self) -> bool
        ensures { MayMake result (with_header self.old) self.new }
    {
        match self {
            Command::Run(words) => {
                words.header = true;
                true
            }
            Command::Mean { header, .. } => {
                *header = true;
                true
            }
            Command::Free(words) => {
                words.header = true;
                true
            }
            Command::Plan { .. } | Command::Upgrade { .. } | Command::Load { .. } => false,
        }
    }

    /// Notes that firings are counted, if the command is a run.
    pub(crate) fn set_counts(&mut self) -> bool
        ensures { MayMake result (with_counts self.old) self.new }
    {
        match self {
            Command::Run(words) => {
                words.counts = true;
                true
            }
            Command::Mean { .. }
            | Command::Plan { .. }
            | Command::Upgrade { .. }
            | Command::Load { .. }
            | Command::Free(_) => false,
        }
    }

    /// Notes the script, if the plan of the command may be rewritten.
    pub(crate) fn set_script(&mut self, name: Text) -> bool
        ensures { MayMake result (with_script name self.old) self.new }
    {
        match self {
            Command::Run(words) => {
                words.script = Some(name);
                true
            }
            Command::Plan { script, .. } => {
                *script = Some(name);
                true
            }
            Command::Mean { .. }
            | Command::Upgrade { .. }
            | Command::Load { .. }
            | Command::Free(_) => false,
        }
    }

    /// Notes how many workers there are, if the command is a run.
    pub(crate) fn set_workers(&mut self, number: Workers) -> bool
        ensures { MayMake result (with_workers number self.old) self.new }
    {
        match self {
            Command::Run(words) => {
                words.by = RunBy::Workers(number);
                true
            }
            Command::Free(words) => {
                words.workers = number;
                true
            }
            Command::Mean { .. }
            | Command::Plan { .. }
            | Command::Upgrade { .. }
            | Command::Load { .. } => false,
        }
    }

    /// Notes that the plan is run by tasks that wait, if the command is a run of a plan.
    pub(crate) fn set_tasks(&mut self) -> bool
        ensures { MayMake result (with_tasks self.old) self.new }
    {
        match self {
            Command::Run(words) => {
                words.by = RunBy::Tasks;
                true
            }
            Command::Mean { .. }
            | Command::Plan { .. }
            | Command::Upgrade { .. }
            | Command::Load { .. }
            | Command::Free(_) => false,
        }
    }

    /// Notes how many items a queue between two operators holds at most, if the command is a run of a plan.
    pub(crate) fn set_cap(&mut self, items: Capacity) -> bool
        ensures { MayMake result (with_cap items self.old) self.new }
    {
        match self {
            Command::Run(words) => {
                words.cap = items;
                true
            }
            Command::Mean { .. }
            | Command::Plan { .. }
            | Command::Upgrade { .. }
            | Command::Load { .. }
            | Command::Free(_) => false,
        }
    }

    /// Notes the number with which the picks begin, if the command has picks.
    pub(crate) fn set_start(&mut self, number: u32) -> bool
        ensures { MayMake result (with_start number self.old) self.new }
    {
        match self {
            Command::Free(words) => {
                words.start = number;
                true
            }
            Command::Run(_)
            | Command::Mean { .. }
            | Command::Plan { .. }
            | Command::Upgrade { .. }
            | Command::Load { .. } => false,
        }
    }

    /// Adds an input, if the command reads inputs.
    pub(crate) fn add_input(&mut self, input: InWord) -> Result<bool, NoMemory>
        ensures { IfOk result (λ fits. MayMake fits (with_input input self.old) self.new) }
    {
        match self {
            Command::Run(words) => {
                words.ins.push(input)?;
                Ok(true)
            }
            Command::Mean { ins, .. } => {
                ins.push(input)?;
                Ok(true)
            }
            Command::Free(words) => {
                words.ins.push(input)?;
                Ok(true)
            }
            Command::Plan { .. } | Command::Upgrade { .. } | Command::Load { .. } => Ok(false),
        }
    }
}

/// Why the words ask for nothing.
#[derive(Clone, Copy)]
pub enum WordFault {
    /// They are no sentence.
    Usage,
    /// There was no memory.
    NoMemory,
}

impl From<NoMemory> for WordFault {
    ghost use Rattle.std.specs.Prelude.{◌≡◌};
    ghost use Rattle.command_line.specs.declared.command.WordFault.TheVariants as fault;

    ghost from_gives = { λ _ e. e ≡ fault.NoMemory };

    fn from(_: NoMemory) -> Self {
        WordFault::NoMemory
    }
}
