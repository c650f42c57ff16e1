// Lines of a content, whose bytes may be written by a backslash.
use crate::fault::CaseFault;
use river_base::Bytes;

// What comes next in a line.
#[derive(Clone, Copy)]
enum Next {
    // A byte as it stands, or a backslash.
    Plain,
    // What stands behind a backslash.
    Behind,
    // The first of two hexadecimal digits.
    High,
    // The second one, behind this one.
    Low(u8),
}

/// Appends a line in its turn, from 1, and a line feed, unless the line ends with a backslash.
pub(crate) fn append_line(line: &[u8], turn: u32, to: &mut Bytes) -> Result<(), CaseFault> {
    if append(line, turn, to)? {
        to.push(b'\n')?;
    }
    Ok(())
}

/// Appends a text in its turn, and says whether it is whole: it is not where it ends with a backslash.
pub(crate) fn append(text: &[u8], turn: u32, to: &mut Bytes) -> Result<bool, CaseFault> {
    let mut next = Next::Plain;
    for &byte in text {
        next = take(next, byte, turn, to)?;
    }
    match next {
        Next::Plain => Ok(true),
        Next::Behind => Ok(false),
        Next::High | Next::Low(_) => Err(CaseFault::Line),
    }
}

// Takes a byte, and says what comes next.
fn take(next: Next, byte: u8, turn: u32, to: &mut Bytes) -> Result<Next, CaseFault> {
    match next {
        Next::Plain if byte == b'\\' => Ok(Next::Behind),
        Next::Plain => push(byte, to),
        Next::Behind => behind(byte, turn, to),
        Next::High => Ok(Next::Low(digit(byte)?)),
        Next::Low(high) => both(high, byte, to),
    }
}

fn push(byte: u8, to: &mut Bytes) -> Result<Next, CaseFault> {
    to.push(byte)?;
    Ok(Next::Plain)
}

// What stands behind a backslash: a byte in two digits, a number, or what stands for another byte.
fn behind(byte: u8, turn: u32, to: &mut Bytes) -> Result<Next, CaseFault> {
    match byte {
        b'x' => Ok(Next::High),
        b'i' => number(turn, to),
        b'h' => number(turn.saturating_sub(1), to),
        _ => push(meant(byte)?, to),
    }
}

// The byte that this one stands for.
fn meant(byte: u8) -> Result<u8, CaseFault> {
    match byte {
        b't' => Ok(b'\t'),
        b'r' => Ok(b'\r'),
        b'n' => Ok(b'\n'),
        b's' => Ok(b' '),
        b'\\' => Ok(b'\\'),
        _ => Err(CaseFault::Line),
    }
}

fn number(number: u32, to: &mut Bytes) -> Result<Next, CaseFault> {
    to.put_number(number)?;
    Ok(Next::Plain)
}

fn both(high: u8, low: u8, to: &mut Bytes) -> Result<Next, CaseFault> {
    push(high.wrapping_mul(16).wrapping_add(digit(low)?), to)
}

fn digit(byte: u8) -> Result<u8, CaseFault> {
    match byte {
        b'0'..=b'9' => Ok(byte - b'0'),
        b'a'..=b'f' => Ok(byte - b'a' + 10),
        _ => Err(CaseFault::Line),
    }
}
