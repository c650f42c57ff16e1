// What is printed of the cases.
use crate::fault::CaseFault;
use river_base::{Bytes, Text};
use std::alloc::Global;
use std::io;
use std::io::Write;

/// How many cases were tried, and how many of them were right.
#[derive(Clone, Copy)]
pub(crate) struct Tally {
    pub tried: u32,
    pub right: u32,
}

impl Tally {
    /// Counts a case.
    pub fn count(&mut self, is_right: bool) {
        self.tried = self.tried.saturating_add(1);
        self.right = self.right.saturating_add(u32::from(is_right));
    }

    /// Whether so many were tried, one at least, and all were right.
    pub fn is_right(self, wanted: u32) -> bool {
        self.tried > 0 && self.right == self.tried && self.tried == wanted
    }
}

/// What a run ended with, and what it wrote.
#[derive(Clone, Copy)]
pub(crate) struct Ran<'a> {
    pub status: u8,
    pub out: &'a [u8],
    pub err: &'a [u8],
}

/// Prints what a case gave that is not what it says.
pub(crate) fn show_wrong<R: Print>(
    rt: &R,
    alloc: Global,
    title: &[u8],
    ran: Ran<'_>,
) -> Result<(), CaseFault> {
    let mut status = Bytes::new(alloc);
    status.put_number(ran.status)?;
    let parts: [&[u8]; 8] = [
        b"wrong: ",
        title,
        b"\nstatus ",
        status.as_slice(),
        b"\nout\n",
        first(ran.out),
        b"\nerr\n",
        first(ran.err),
    ];
    show(rt, &parts)
}

fn show<R: Print>(rt: &R, parts: &[&[u8]]) -> Result<(), CaseFault> {
    let mut to = io::writer(rt);
    for part in parts {
        to.write_all(part)?;
    }
    to.write_all(b"\n")?;
    Ok(())
}

/// Prints which words stood behind those of a case.
pub(crate) fn show_more<R: Print>(rt: &R, more: &[Text]) -> Result<(), CaseFault> {
    let mut to = io::writer(rt);
    to.write_all(b"behind its words")?;
    for word in more {
        to.write_all(b" ")?;
        to.write_all(word.as_slice())?;
    }
    to.write_all(b"\n")?;
    Ok(())
}

// The first bytes.
fn first(bytes: &[u8]) -> &[u8] {
    bytes.get(..2000).unwrap_or(bytes)
}

/// Prints why the cases cannot be gone through.
pub(crate) fn show_fault<R: Print>(rt: &R, line: u32, fault: CaseFault) -> io::Result<()> {
    match fault {
        CaseFault::Line => println!(rt; "line {line} cannot be read, or may not stand there"),
        CaseFault::NoMemory => println!(rt; "line {line}: out of memory"),
        CaseFault::Output => Ok(()),
    }
}

/// Prints how many were right.
pub(crate) fn show_tally<R: Print>(rt: &R, tally: Tally, wanted: u32) -> io::Result<()> {
    let Tally { tried, right } = tally;
    if tried != wanted {
        return println!(rt; "{tried} cases, where the first line says {wanted}");
    }
    println!(rt; "{right} of {tried} cases are right")
}
