// Operators on workers and on tasks of their own: each is to begin its first firing while those of the others are held.
ghost use Rattle.std.specs.Thread.{IsSync};

use river_base::{Gate, Text};
use river_cli::river;
use river_outside::{MemShelf, MemSink};
use std::alloc::Global;
use std::sync::Wait;
use std::sync::atomic::{AtomicU64, Ordering};
use std::test::Fail;
use std::thread::Threads;
use worked_cases::{Runner, go_through};

// For so many turns the first firing of an operator is held, at most.
const TURNS: u32 = 500_000_000;

// Two operators with an input each, and no queue between them.
const TWO: &str = "\
cases 1
case two operators meet
words run river two.river a=a.csv b=b.csv -w 2
file two.river
| output c: rows(1);
| output d: rows(1);
| input a: rows(1);
| input b: rows(1);
| op f: (c) <- (a) { code(1, 0) (1) () { push 0 ((input[0] + 1)); } }
| op g: (d) <- (b) { code(1, 0) (1) () { push 0 ((input[0] * 2)); } }
file a.csv
| 1
| 2
file b.csv
| 5
| 6
status 0
out
| # c
| 2
| 3
| # d
| 10
| 12
end
";

// The same by tasks that wait.
const LIVE: &str = "\
cases 1
case two operators meet
words run river two.river a=a.csv b=b.csv -L
file two.river
| output c: rows(1);
| output d: rows(1);
| input a: rows(1);
| input b: rows(1);
| op f: (c) <- (a) { code(1, 0) (1) () { push 0 ((input[0] + 1)); } }
| op g: (d) <- (b) { code(1, 0) (1) () { push 0 ((input[0] * 2)); } }
file a.csv
| 1
| 2
file b.csv
| 5
| 6
status 0
out
| # c
| 2
| 3
| # d
| 10
| 12
end
";

// Three operators by tasks that wait.
const THREE: &str = "\
cases 1
case three operators meet
words run river three.river a=a.csv b=b.csv e=e.csv -L
file three.river
| output c: rows(1);
| output d: rows(1);
| output g: rows(1);
| input a: rows(1);
| input b: rows(1);
| input e: rows(1);
| op f: (c) <- (a) { code(1, 0) (1) () { push 0 ((input[0] + 1)); } }
| op h: (d) <- (b) { code(1, 0) (1) () { push 0 ((input[0] * 2)); } }
| op k: (g) <- (e) { code(1, 0) (1) () { push 0 ((input[0] - 1)); } }
file a.csv
| 1
| 2
file b.csv
| 5
| 6
file e.csv
| 8
| 9
status 0
out
| # c
| 2
| 3
| # d
| 10
| 12
| # g
| 7
| 8
end
";

/// Holds the first firing of each of two or three operators until the others were entered.
#[derive(Drop)]
pub(crate) struct Meeting {
    first: AtomicU64,
    second: AtomicU64,
    // Where there are but two, as if it had been entered.
    third: AtomicU64,
    // How many gave up.
    missed: AtomicU64,
}

impl Meeting {
    fn of_two() -> Self {
        Meeting {
            first: AtomicU64::new(0),
            second: AtomicU64::new(0),
            third: AtomicU64::new(1),
            missed: AtomicU64::new(0),
        }
    }

    fn of_three() -> Self {
        Meeting {
            first: AtomicU64::new(0),
            second: AtomicU64::new(0),
            third: AtomicU64::new(0),
            missed: AtomicU64::new(0),
        }
    }

    // Whether each was entered.
    fn all_entered(&self) -> bool {
        self.first.load(Ordering::SeqCst) == 1
            && self.second.load(Ordering::SeqCst) == 1
            && self.third.load(Ordering::SeqCst) == 1
    }

    // Holds the first firing of one until the others were entered, or all turns are over.
    fn hold(&self, own: &AtomicU64) {
        if own.swap(1, Ordering::SeqCst) == 1 {
            return;
        }
        for _turn in 0..TURNS {
            if self.all_entered() {
                return;
            }
        }
        self.missed.fetch_add(1, Ordering::SeqCst);
    }

    /// Whether all were entered, and none gave up.
    pub fn has_met(&self) -> bool {
        self.all_entered() && self.missed.load(Ordering::SeqCst) == 0
    }
}

impl Gate for Meeting {
    fn enter(&self, op: u32) {
        match op {
            0 => self.hold(&self.first),
            1 => self.hold(&self.second),
            _ => self.hold(&self.third),
        }
    }
}

/// The top call with this gate.
#[derive(Drop)]
pub(crate) struct Meets {
    alloc: Global,
    pub gate: Meeting,
}

impl Meets {
    pub fn of_two(alloc: Global) -> Self {
        Meets {
            alloc,
            gate: Meeting::of_two(),
        }
    }

    fn of_three(alloc: Global) -> Self {
        Meets {
            alloc,
            gate: Meeting::of_three(),
        }
    }
}

impl Runner for Meets {
    fn run<R: Threads + Wait + Sync>(
        &self,
        rt: &R,
        words: &[Text],
        shelf: &mut MemShelf,
        out: &mut MemSink,
        err: &mut MemSink,
    ) -> u8
        requires { IsSync R.row }
    {
        river(rt, self.alloc, words, shelf, out, err, &self.gate)
    }
}

#[test]
fn two_must_meet(rt: HostRuntime) -> Result<(), Fail> {
    let top = Meets::of_two(rt.alloc());
    assert!(rt; go_through(&rt, rt.alloc(), &top, TWO)?);
    assert!(rt; top.gate.has_met());
    Ok(())
}

/// Each of the two has a thread of its own, and begins its first firing while the other's is held.
#[test]
fn two_live(rt: HostRuntime) -> Result<(), Fail> {
    let top = Meets::of_two(rt.alloc());
    assert!(rt; go_through(&rt, rt.alloc(), &top, LIVE)?);
    assert!(rt; top.gate.has_met());
    Ok(())
}

/// Each of three has a thread of its own: two threads would leave one of them out.
#[test]
fn three_live(rt: HostRuntime) -> Result<(), Fail> {
    let top = Meets::of_three(rt.alloc());
    assert!(rt; go_through(&rt, rt.alloc(), &top, THREE)?);
    assert!(rt; top.gate.has_met());
    Ok(())
}
