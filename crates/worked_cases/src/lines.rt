// Goes through the lines of the cases.
use crate::fault::CaseFault;
use crate::reader::Reader;
use crate::report::{Tally, show_fault, show_tally};
use crate::run::{Runner, tries};
use std::alloc::Global;
use std::io;
use std::sync::Wait;
use std::thread::Threads;

/// Runs the cases of a text, and says whether each gives what it says, and there are as many as the first line says. Prints
/// each case that gives something else, with what it gave, and last how many were right; or the line that cannot be read.
pub fn go_through<R: Print + Threads + Wait + Sync, T: Runner>(
    rt: &R,
    alloc: Global,
    runner: &T,
    text: &str,
) -> io::Result<bool> {
    let mut reader = Reader::new(alloc);
    take_lines(rt, alloc, runner, &mut reader, text)
}

fn take_lines<R: Print + Threads + Wait + Sync, T: Runner>(
    rt: &R,
    alloc: Global,
    runner: &T,
    reader: &mut Reader,
    text: &str,
) -> io::Result<bool> {
    let mut tally = Tally { tried: 0, right: 0 };
    let mut number = 0u32;
    for line in text.lines() {
        number = number.saturating_add(1);
        if let Err(fault) = take_line(rt, alloc, runner, reader, &mut tally, line) {
            return faulty(rt, number, fault);
        }
    }
    end(rt, reader, tally)
}

// Reads a line, and where a case ends there, runs it.
fn take_line<R: Print + Threads + Wait + Sync, T: Runner>(
    rt: &R,
    alloc: Global,
    runner: &T,
    reader: &mut Reader,
    tally: &mut Tally,
    line: &str,
) -> Result<(), CaseFault> {
    if reader.take(line)? {
        let is_right = tries(rt, alloc, runner, reader.case(), reader.besides())?;
        tally.count(is_right);
    }
    Ok(())
}

// What is said of a line that ends all.
fn faulty<R: Print>(rt: &R, line: u32, fault: CaseFault) -> io::Result<bool> {
    show_fault(rt, line, fault)?;
    Ok(false)
}

// What is said when all lines are read.
fn end<R: Print>(rt: &R, reader: &Reader, tally: Tally) -> io::Result<bool> {
    if reader.is_within_a_case() {
        return cut_off(rt);
    }
    show_tally(rt, tally, reader.wanted())?;
    Ok(tally.is_right(reader.wanted()))
}

fn cut_off<R: Print>(rt: &R) -> io::Result<bool> {
    println!(rt; "the last case is cut off")?;
    Ok(false)
}
