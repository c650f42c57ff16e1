// The files of a work folder, among the files of a store.
ghost use Rattle.std.specs.Prelude.{◌≡◌, ◌++◌, true, codes, IsTrue, IfOk, OnOk};
ghost use Rattle.std.specs.Option.{option_map};
ghost use Rattle.std.specs.Fmt.{decimal};
ghost use Rattle.piece_files.specs.Counts.{with_more};
ghost use Rattle.piece_files.specs.Names.{file_name, name_of, numbers_fit, held_in};

use crate::count::one_more;
use crate::{JobFile, JobFiles, Store};
use river_base::{Bytes, NoMemory};
use river_outside::{Failed, FetchFault, fetch};
use std::alloc::Global;

/// The files of the work folder of this path: `PATH/program`, `PATH/state`, `PATH/list`, `PATH/kept`, `PATH/mark`, `PATH/whole`;
/// of job N `PATH/words.N` and `PATH/in.N`; of its try T `PATH/out.N.T`, `PATH/err.N.T` and `PATH/status.N.T`.
#[derive(Drop)]
pub struct Folder<'a, S> {
    store: S,
    alloc: Global,
    path: &'a [u8],
    // How often there was no memory for the name of a file that was to be put.
    unnamed: u64,
}

impl<'a, S: Store> Folder<'a, S> {
    /// The folder of this path.
    pub fn new(store: S, alloc: Global, path: &'a [u8]) -> Self
        ensures store { result.store ≡ store }
        ensures path { result.path.now ≡ path.now }
        ensures unnamed { result.unnamed ≡ 0 }
    {
        Folder {
            store,
            alloc,
            path,
            unnamed: 0,
        }
    }

    /// The store.
    pub fn into_store(self) -> S
        ensures { result ≡ self.entry.store }
    {
        self.store
    }
}

// The name of a file of the folder of this path.
fn name_in(alloc: Global, path: &[u8], file: JobFile) -> Result<Bytes, NoMemory>
    ensures is { IfOk result (λ name. name ≡ name_of path.now file) }
    ensures fits { IfOk result (λ _. IsTrue (numbers_fit file)) }
{
    let mut name = Bytes::from_slice(alloc, path)?;
    name.push(b'/')?;
    put_name(&mut name, file)?;
    Ok(name)
}

// Appends the name of a file.
fn put_name(name: &mut Bytes, file: JobFile) -> Result<(), NoMemory>
    ensures is { OnOk result (name.new ≡ name.old ++ file_name file) }
    ensures fits { IsTrue (numbers_fit file) }
{
    match file {
        JobFile::Program => name.extend(b"program"),
        JobFile::State => name.extend(b"state"),
        JobFile::List => name.extend(b"list"),
        JobFile::Kept => name.extend(b"kept"),
        JobFile::Mark => name.extend(b"mark"),
        JobFile::Whole => name.extend(b"whole"),
        JobFile::Words { job } => put_job(name, b"words.", job),
        JobFile::Input { job } => put_job(name, b"in.", job),
        JobFile::Out { job, turn } => put_try(name, b"out.", job, turn),
        JobFile::Err { job, turn } => put_try(name, b"err.", job, turn),
        JobFile::Status { job, turn } => put_try(name, b"status.", job, turn),
    }
}

// Appends a word and the number of a job.
fn put_job(name: &mut Bytes, word: &[u8], job: u64) -> Result<(), NoMemory>
    ensures { OnOk result (name.new ≡ name.old ++ (word.now ++ decimal job)) }
{
    name.extend(word)?;
    name.put_number(job)
}

// Appends a word, the number of a job, and that of a try.
fn put_try(name: &mut Bytes, word: &[u8], job: u64, turn: u32) -> Result<(), NoMemory>
    ensures { OnOk result (name.new ≡ name.old ++ (word.now ++ (decimal job ++ (codes "." ++ decimal turn)))) }
{
    put_job(name, word, job)?;
    name.push(b'.')?;
    name.put_number(turn)
}

impl<S: Store> JobFiles for Folder<'_, S> {
    ghost held = { λ f. option_map (held_in f.path.now) (S.held f.store) };

    // Those of the store, and where there was no memory for a name.
    ghost faults = { λ f. with_more (S.faults f.store) f.unnamed };

    ghost stays_at_last = { true };

    fn fetch(&mut self, alloc: Global, file: JobFile, limit: u64) -> Result<Bytes, FetchFault> {
        match name_in(alloc, self.path, file) {
            Ok(name) => fetch(alloc, &mut self.store, name.as_slice(), limit),
            Err(NoMemory) => Err(FetchFault::NoMemory),
        }
    }

    fn put(&mut self, file: JobFile, bytes: &[u8]) -> Result<(), Failed> {
        match name_in(self.alloc, self.path, file) {
            Ok(name) => self.store.put(name.as_slice(), bytes),
            Err(NoMemory) => {
                self.unnamed = one_more(self.unnamed);
                Err(Failed)
            }
        }
    }
}
