// A case: what is run, and what it is to give.
use crate::fault::CaseFault;
use river_base::{Bytes, Listed, Numbers, Text};
use river_outside::Files;
use std::alloc::Global;

/// Words of a command line.
pub(crate) type Words = Listed<Text>;

/// How a device goes on: at most how many bytes a call moves, for how many bytes it has room, and the numbers of the calls
/// that fail.
#[derive(Drop)]
pub(crate) struct Device {
    pub piece: u32,
    pub room: u32,
    pub fails: Numbers,
}

impl Device {
    /// A device whose calls all succeed.
    pub fn new(alloc: Global) -> Self {
        Device {
            piece: 65_536,
            room: 4_000_000,
            fails: Numbers::new(alloc),
        }
    }
}

/// What is run, and what it is to give.
#[derive(Drop)]
pub(crate) struct Case {
    pub title: Bytes,
    pub words: Words,
    pub files: Files,
    pub reads: Device,
    pub writes: Device,
    pub tells: Device,
    pub status: Option<u8>,
    pub out: Bytes,
    pub err: Bytes,
}

impl Case {
    /// A case without words and files.
    pub fn new(alloc: Global) -> Self {
        Case {
            title: Bytes::new(alloc),
            words: Words::new(alloc),
            files: Files::new(alloc),
            reads: Device::new(alloc),
            writes: Device::new(alloc),
            tells: Device::new(alloc),
            status: None,
            out: Bytes::new(alloc),
            err: Bytes::new(alloc),
        }
    }

    /// Leaves the words and the files, and nothing else.
    pub fn again(&mut self, alloc: Global) {
        self.reads = Device::new(alloc);
        self.writes = Device::new(alloc);
        self.tells = Device::new(alloc);
        self.status = None;
        self.out.truncate(0);
        self.err.truncate(0);
    }
}

/// Puts a file in place of the one of its name, if there is one.
pub(crate) fn put(files: &mut Files, file: (Bytes, Bytes)) -> Result<(), CaseFault> {
    for other in files.as_mut_slice() {
        if other.0 == file.0 {
            other.1 = file.1;
            return Ok(());
        }
    }
    Ok(files.push(file)?)
}

/// The content under a name.
pub(crate) fn find<'a>(files: &'a Files, name: &[u8]) -> Option<&'a Bytes> {
    for file in files.as_slice() {
        if file.0.as_slice() == name {
            return Some(&file.1);
        }
    }
    None
}
