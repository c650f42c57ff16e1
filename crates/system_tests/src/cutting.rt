// A River text that is cut behind any of its bytes but the last of a unit: it is refused for the syntax of the unit that was cut.
ghost use Rattle.std.specs.Thread.{IsSync};

use river_base::{NoGate, Text};
use river_cli::river;
use river_outside::{MemShelf, MemSink};
use std::alloc::Global;
use std::sync::Wait;
use std::test::Fail;
use std::thread::Threads;
use worked_cases::{Runner, go_through};

// The units of the text, one a line.
const UNITS: [&str; 5] = [
    "output out: rows(1);",
    "input in: rows(1);",
    "queue q: rows(1);",
    "op a: (q) <- (in) { code(1, 0) (1) () { push 0 (-input[0]); } }",
    "op b: (out) <- (q) { code(1, 0) (1) () { push 0 (input[0] + 1); } }",
];

// How many cases there are: one for each byte of each unit but the last.
fn count_of_cuts() -> usize {
    let mut count = 0usize;
    for unit in UNITS {
        count = count.wrapping_add(unit.len()).wrapping_sub(1);
    }
    count
}

// The case of the units before this one, and of so many of its bytes.
fn append_case(alloc: Global, unit: usize, bytes: usize, to: &mut String) -> Result<(), Fail> {
    to.push_str("case a text that is cut\nwords plan river g\nfile g\n")?;
    for before in UNITS.iter().take(unit) {
        to.push_str(format!(in alloc; "| {before}\n")?.as_str())?;
    }
    let whole = UNITS.get(unit).ok_or("no unit")?;
    let front = whole.get(..bytes).ok_or("no front")?;
    let number = unit.wrapping_add(1);
    let case = format!(in alloc;
        "| {front}\\\nstatus 1\nerr | refused: program: Syntax {number}\nend\n"
    )?;
    to.push_str(case.as_str())?;
    Ok(())
}

// All of them.
fn cases(alloc: Global) -> Result<String, Fail> {
    let mut text = format!(in alloc; "cases {}\n", count_of_cuts())?;
    for (number, unit) in UNITS.iter().enumerate() {
        for bytes in 1..unit.len() {
            append_case(alloc, number, bytes, &mut text)?;
        }
    }
    Ok(text)
}

// The top call.
#[derive(Drop)]
struct Plain {
    alloc: Global,
}

impl Runner for Plain {
    fn run<R: Threads + Wait + Sync>(
        &self,
        rt: &R,
        words: &[Text],
        shelf: &mut MemShelf,
        out: &mut MemSink,
        err: &mut MemSink,
    ) -> u8
        requires { IsSync R.row }
    {
        river(rt, self.alloc, words, shelf, out, err, &NoGate)
    }
}

#[test]
fn cut_behind_each_byte(rt: HostRuntime) -> Result<(), Fail> {
    let text = cases(rt.alloc())?;
    let top = Plain { alloc: rt.alloc() };
    assert!(rt; go_through(&rt, rt.alloc(), &top, text.as_str())?);
    Ok(())
}
