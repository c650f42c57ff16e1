// The files of a work folder.

/// A file of the folder in which a program is run in pieces. Jobs are numbered from 1, and so are the tries of a job.
#[derive(Clone, Copy, PartialEq, Eq)]
pub enum JobFile {
    /// The text of the program.
    Program,
    /// How far the work is.
    State,
    /// The jobs that are to be run now.
    List,
    /// What is kept of an earlier call, on the front of the file.
    Kept,
    /// How far the file will be read by what may be kept of this call.
    Mark,
    /// What is printed in the end.
    Whole,
    /// The words of a job.
    Words { job: u64 },
    /// The records of a job.
    Input { job: u64 },
    /// What a try of a job printed.
    Out { job: u64, turn: u32 },
    /// What it told on its error output.
    Err { job: u64, turn: u32 },
    /// How it ended.
    Status { job: u64, turn: u32 },
}
