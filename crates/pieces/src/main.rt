//! The program pieces: the top call over the real files and streams.
#![tactic(auto)]

use piece_cli::{folder_of, keep_of, pieces};
use piece_files::{FileStore, Folder, Inputs};
use river_base::{Bytes, NoMemory, Text};
use river_outside::{FileShelf, StdSink};
use std::alloc::Global;
use std::env;
use std::io::ErrorKind;
use std::process::ExitCode;

fn main(rt: HostRuntime) -> ExitCode {
    let alloc = rt.alloc();
    let Ok(words) = words_of(&rt, alloc) else {
        return ExitCode::from(5);
    };
    let folder = match folder_of(words.as_slice()) {
        Some(folder) => folder,
        None => b"",
    };
    let files = Folder::new(FileStore::new(&rt, alloc), alloc, folder);
    let mut inputs = Inputs::new(files);
    let kept = match keep_of(words.as_slice()) {
        Some(folder) => folder,
        None => b"",
    };
    let mut keep = Folder::new(FileStore::new(&rt, alloc), alloc, kept);
    let mut shelf = FileShelf::new(&rt, alloc);
    let mut out = StdSink::new(rt.stdout());
    let mut err = StdSink::new(rt.stderr());
    let status = pieces(
        alloc,
        words.as_slice(),
        &mut shelf,
        &mut inputs,
        &mut keep,
        &mut out,
        &mut err,
    );
    ExitCode::from(status)
}

// The words without the program's name; the one empty word, which is no sentence, where they cannot be had as text.
fn words_of(rt: &HostRuntime, alloc: Global) -> Result<Vec<Text>, NoMemory> {
    let mut words = Vec::new(alloc);
    match env::args(rt) {
        Ok(args) => {
            for arg in args.skip(1) {
                words.push(Bytes::from_slice(alloc, arg.as_bytes())?)?;
            }
        }
        Err(e) if e.kind() == ErrorKind::OutOfMemory => return Err(NoMemory),
        Err(_) => words.push(Bytes::new(alloc))?,
    }
    Ok(words)
}
