// The files of the system, which are read and written. What they hold is not told.
ghost use Rattle.std.specs.Prelude.{◌≡◌, true, None};

use crate::Store;
use crate::count::one_more;
use river_base::{Bytes, NoMemory};
use river_outside::{Failed, FileShelf, ReadFault, Shelf};
use std::alloc::Global;
use std::rt::Files;
use std::{fs, str};

/// Files of the system. A file is written under its name with `.new` behind it, and then gets its name: so it is whole, or what
/// it was. What the files hold is not told.
#[derive(Drop)]
pub struct FileStore<'a, R: Files> {
    rt: &'a R,
    alloc: Global,
    shelf: FileShelf<'a, R>,
    faults: u64,
}

impl<'a, R: Files> FileStore<'a, R> {
    /// The files of this system.
    pub fn new(rt: &'a R, alloc: Global) -> Self
        ensures { result.faults ≡ 0 }
    {
        FileStore {
            rt,
            alloc,
            shelf: FileShelf::new(rt, alloc),
            faults: 0,
        }
    }

    // Writes the file.
    fn write(&self, name: &[u8], bytes: &[u8]) -> Result<(), Failed> {
        let Ok(new) = new_name(self.alloc, name) else {
            return Err(Failed);
        };
        let Ok(new) = str::from_utf8(new.as_slice()) else {
            return Err(Failed);
        };
        if fs::write(self.rt, new, bytes).is_err() {
            return Err(Failed);
        }
        self.rename(new, name)
    }

    // Gives the file its name.
    fn rename(&self, new: &str, name: &[u8]) -> Result<(), Failed> {
        let Ok(name) = str::from_utf8(name) else {
            return Err(Failed);
        };
        match fs::rename(self.rt, new, name) {
            Ok(()) => Ok(()),
            Err(_) => Err(Failed),
        }
    }
}

// The name under which a file is written.
fn new_name(alloc: Global, name: &[u8]) -> Result<Bytes, NoMemory> {
    let mut new = Bytes::from_slice(alloc, name)?;
    new.extend(b".new")?;
    Ok(new)
}

impl<R: Files> Shelf for FileStore<'_, R> {
    ghost held = { λ _. None };

    ghost faults = { λ s. s.faults };

    ghost stays_at_last = { true };

    fn read(&mut self, name: &[u8], at: u64, into: &mut [u8]) -> Result<usize, ReadFault> {
        let answer = self.shelf.read(name, at, into);
        if answer.is_err() {
            self.faults = one_more(self.faults);
        }
        answer
    }
}

impl<R: Files> Store for FileStore<'_, R> {
    fn put(&mut self, name: &[u8], bytes: &[u8]) -> Result<(), Failed> {
        let answer = self.write(name, bytes);
        if answer.is_err() {
            self.faults = one_more(self.faults);
        }
        answer
    }
}
