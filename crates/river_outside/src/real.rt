// The real files and streams. What they hold and take is not told.
ghost use Rattle.std.specs.Prelude.{◌≡◌, ◌<◌, ◌≤◌, length, true, None, IfOk};

use crate::count::one_fault_more;
use crate::{Failed, ReadFault, Shelf, Sink};
use std::alloc::Global;
use std::io::{ErrorKind, Read, Write};
use std::rt::Files;
use std::{fs, str};

/// Files of the system, one open at a time. A read at 0 opens the file anew, a read of the same name at the
/// current place goes on, and any other read fails. Only where there is no such file is it `Absent`; a folder
/// fails. What the files hold is not told.
#[derive(Drop)]
pub struct FileShelf<'a, R: Files> {
    rt: &'a R,
    alloc: Global,
    open: Option<Place<R::File>>,
    faults: u64,
}

// An open file, its name, and where the next read begins.
#[derive(Drop)]
struct Place<F> {
    name: Vec<u8>,
    at: u64,
    file: F,
}

impl<'a, R: Files> FileShelf<'a, R> {
    /// The files of this system.
    pub fn new(rt: &'a R, alloc: Global) -> Self
        ensures { result.faults ≡ 0 }
    {
        FileShelf {
            rt,
            alloc,
            open: None,
            faults: 0,
        }
    }

    // Opens a file anew.
    fn begin(&mut self, name: &[u8]) -> Result<Place<R::File>, ReadFault>
        ensures { self.new.faults ≡ self.old.faults }
    {
        self.open = None;
        let Ok(path) = str::from_utf8(name) else {
            return Err(ReadFault::Failed);
        };
        let Ok(copy) = Vec::from_slice(self.alloc, name) else {
            return Err(ReadFault::Failed);
        };
        match fs::open(self.rt, path) {
            Ok(file) => Ok(Place {
                name: copy,
                at: 0,
                file,
            }),
            Err(e) if e.kind() == ErrorKind::NotFound => Err(ReadFault::Absent),
            Err(_) => Err(ReadFault::Failed),
        }
    }

    // The file whose next read is at that place.
    fn place(&mut self, name: &[u8], at: u64) -> Result<Place<R::File>, ReadFault>
        ensures { self.new.faults ≡ self.old.faults }
    {
        if at == 0 {
            return self.begin(name);
        }
        match self.open.take() {
            Some(place) if place.at == at && place.name.as_slice() == name => Ok(place),
            _ => Err(ReadFault::Failed),
        }
    }

    fn next(&mut self, name: &[u8], at: u64, into: &mut [u8]) -> Result<usize, ReadFault>
        ensures stays { self.new.faults ≡ self.old.faults }
        ensures bound { IfOk result (λ n. n ≤ length into.new) }
    {
        let mut place = self.place(name, at)?;
        match place.file.read(into) {
            Ok(count) => {
                place.at = place.at.saturating_add(count as u64);
                self.open = Some(place);
                Ok(count)
            }
            Err(_) => Err(ReadFault::Failed),
        }
    }
}

impl<R: Files> Shelf for FileShelf<'_, R> {
    ghost held = { λ _. None };

    ghost faults = { λ s. s.faults };

    ghost stays_at_last = { true };

    fn read(&mut self, name: &[u8], at: u64, into: &mut [u8]) -> Result<usize, ReadFault> {
        let answer = self.next(name, at, into);
        if answer.is_err() {
            self.faults = one_fault_more(self.faults);
        }
        answer
    }
}

/// A writer of the system, which is flushed after each write. What it took is not told.
#[derive(Drop)]
pub struct StdSink<W> {
    writer: W,
    faults: u64,
}

impl<W: Write> StdSink<W> {
    /// A sink over this writer.
    pub fn new(writer: W) -> Self
        ensures { result.faults ≡ 0 }
    {
        StdSink { writer, faults: 0 }
    }

    fn next(&mut self, bytes: &[u8]) -> Result<usize, Failed>
        ensures stays { self.new.faults ≡ self.old.faults }
        ensures bound { IfOk result (λ n. n ≤ length bytes.now) }
        ensures moves { IfOk result (λ n. 0 < length bytes.now → 0 < n) }
    {
        match self.writer.write(bytes) {
            Ok(count) if count > 0 || bytes.is_empty() => match self.writer.flush() {
                Ok(()) => Ok(count),
                Err(_) => Err(Failed),
            },
            _ => Err(Failed),
        }
    }
}

impl<W: Write> Sink for StdSink<W> {
    ghost taken = { λ _. None };

    ghost faults = { λ s. s.faults };

    ghost stays_at_last = { true };

    fn write(&mut self, bytes: &[u8]) -> Result<usize, Failed> {
        let answer = self.next(bytes);
        if answer.is_err() {
            self.faults = one_fault_more(self.faults);
        }
        answer
    }
}
