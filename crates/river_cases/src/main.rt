//! Runs worked cases of the top call over memory. They stand in the files that its words name, one file for each subject; the
//! head of the first says how they are written. Prints each case that gives something else, with what it gave, and for each
//! file how many were right. Ends with status 1 where one was not, where a line cannot be read, where a file has no case, or
//! not as many as its first line says, and where no file is named.
#![tactic(auto)]

ghost use Rattle.std.specs.Thread.{IsSync};

use river_base::{NoGate, Text};
use river_cli::river;
use river_outside::{MemShelf, MemSink};
use std::alloc::Global;
use std::process::ExitCode;
use std::sync::Wait;
use std::thread::Threads;
use std::{env, fs, io};
use worked_cases::{Runner, go_through};

// The top call.
#[derive(Drop)]
struct River {
    alloc: Global,
}

impl Runner for River {
    fn run<R: Threads + Wait + Sync>(
        &self,
        rt: &R,
        words: &[Text],
        shelf: &mut MemShelf,
        out: &mut MemSink,
        err: &mut MemSink,
    ) -> u8
        requires { IsSync R.row }
    {
        river(rt, self.alloc, words, shelf, out, err, &NoGate)
    }
}

fn main(rt: HostRuntime) -> io::Result<ExitCode> {
    let alloc = rt.alloc();
    let top = River { alloc };
    let mut files = 0u32;
    let mut right = 0u32;
    for name in env::args(&rt)?.skip(1) {
        let text = fs::read_to_string(&rt, name.as_str())?;
        print!(rt; "{name}: ")?;
        let is_right = go_through(&rt, alloc, &top, text.as_str())?;
        files = files.saturating_add(1);
        right = right.saturating_add(u32::from(is_right));
    }
    let is_right = files > 0 && right == files;
    Ok(ExitCode::from(u8::from(!is_right)))
}
