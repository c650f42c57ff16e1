// Firings of a free program: two of one round, on two workers, each of which is to begin while the other is held; and as many as its
// journal tells.
ghost use Rattle.std.specs.Thread.{IsSync};

use crate::meeting::Meets;
use river_base::{Gate, Text};
use river_cli::river;
use river_outside::{MemShelf, MemSink};
use std::alloc::Global;
use std::sync::Wait;
use std::sync::atomic::{AtomicU64, Ordering};
use std::test::Fail;
use std::thread::Threads;
use worked_cases::{Runner, go_through};

// Two operators of which one has a cell: they share nothing.
const APART: &str = "\
cases 1
case two firings of one round meet
words free apart.free x=x.csv y=y.csv -w 2
file apart.free
| output a: rows(1);
| output b: rows(1);
| input x: rows(1);
| input y: rows(1);
| cell $n = 0;
| op p: (a, $n) <- (x, $n) { case(1, 1) { slot[0] = slot[0] + input[0]; push 0 (slot[0]); } }
| op q: (b) <- (y) { case(1, 0) { push 0 (2 * input[0]); } }
file x.csv | 5
file y.csv | 1
status 0
out
| # a
| 5
| # b
| 2
| # n
| 5
| ## journal
| 1,p,0
| 1,q,0
end
";

#[test]
fn two_fire_at_once(rt: HostRuntime) -> Result<(), Fail> {
    let top = Meets::of_two(rt.alloc());
    assert!(rt; go_through(&rt, rt.alloc(), &top, APART)?);
    assert!(rt; top.gate.has_met());
    Ok(())
}

// Two doors that hand out tickets by a cell that both change, by one worker and by two: the first fires twice, the second three times.
const TICKETS: &str = "\
cases 2
case two doors and a worker
words free doors.free x=x.csv y=y.csv
file doors.free
| output a: rows(1);
| output b: rows(1);
| input x: rows(1);
| input y: rows(1);
| cell $n = 1;
| op one: (a, $n) <- (x, $n) { case(1, 1) { push 0 (slot[0]); slot[0] = slot[0] + 1; } }
| op two: (b, $n) <- (y, $n) { case(1, 1) { push 0 (slot[0]); slot[0] = slot[0] + 1; } }
file x.csv
| 70
| 71
file y.csv
| 80
| 81
| 82
status 0
out
| # a
| 1
| 3
| # b
| 2
| 4
| 5
| # n
| 6
| ## journal
| 1,one,0
| 2,two,0
| 3,one,0
| 4,two,0
| 5,two,0
end
case two doors and two workers
words free doors.free x=x.csv y=y.csv -w 2
file doors.free
| output a: rows(1);
| output b: rows(1);
| input x: rows(1);
| input y: rows(1);
| cell $n = 1;
| op one: (a, $n) <- (x, $n) { case(1, 1) { push 0 (slot[0]); slot[0] = slot[0] + 1; } }
| op two: (b, $n) <- (y, $n) { case(1, 1) { push 0 (slot[0]); slot[0] = slot[0] + 1; } }
file x.csv
| 70
| 71
file y.csv
| 80
| 81
| 82
status 0
out
| # a
| 1
| 3
| # b
| 2
| 4
| 5
| # n
| 6
| ## journal
| 1,one,0
| 2,two,0
| 3,one,0
| 4,two,0
| 5,two,0
end
";

// The status that is told where the gate was entered more or less often than the journal has firings.
const MISCOUNTED: u8 = 99;

/// Counts the firings of the first two operators, and those of all others.
#[derive(Drop)]
struct Entries {
    first: AtomicU64,
    second: AtomicU64,
    others: AtomicU64,
}

impl Entries {
    fn new() -> Self {
        Entries {
            first: AtomicU64::new(0),
            second: AtomicU64::new(0),
            others: AtomicU64::new(0),
        }
    }

    // Whether the first fired twice, the second three times, and no other.
    fn are_told(&self) -> bool {
        self.first.load(Ordering::SeqCst) == 2
            && self.second.load(Ordering::SeqCst) == 3
            && self.others.load(Ordering::SeqCst) == 0
    }
}

impl Gate for Entries {
    fn enter(&self, op: u32) {
        let number = match op {
            0 => &self.first,
            1 => &self.second,
            _ => &self.others,
        };
        number.fetch_add(1, Ordering::SeqCst);
    }
}

// The top call with such a gate for each run.
#[derive(Drop)]
struct Tickets {
    alloc: Global,
}

impl Runner for Tickets {
    fn run<R: Threads + Wait + Sync>(
        &self,
        rt: &R,
        words: &[Text],
        shelf: &mut MemShelf,
        out: &mut MemSink,
        err: &mut MemSink,
    ) -> u8
        requires { IsSync R.row }
    {
        let gate = Entries::new();
        let status = river(rt, self.alloc, words, shelf, out, err, &gate);
        if gate.are_told() { status } else { MISCOUNTED }
    }
}

/// The gate is entered once for each firing of the journal, by its operator.
#[test]
fn the_journal_was_fired(rt: HostRuntime) -> Result<(), Fail> {
    let top = Tickets { alloc: rt.alloc() };
    assert!(rt; go_through(&rt, rt.alloc(), &top, TICKETS)?);
    Ok(())
}
