// The order in which two operators of one worker fire, which tells the room of the queue between them.
ghost use Rattle.std.specs.Thread.{IsSync};

use river_base::{Gate, Text};
use river_cli::river;
use river_outside::{MemShelf, MemSink};
use std::alloc::Global;
use std::sync::Wait;
use std::sync::atomic::{AtomicU64, Ordering};
use std::test::Fail;
use std::thread::Threads;
use worked_cases::{Runner, go_through};

// A case of two operators with a queue between them: 32 items, these words on who runs them and on queues, and what stands behind
// the queue's type.
fn case_of(alloc: Global, words: &str, queue: &str) -> Result<String, Fail> {
    let head = "cases 1\ncase two operators, one queue\nwords run river two.river in=n.csv";
    let above = "file two.river\n| river 2;\n| output out: rows(1);\n| input in: rows(1);";
    let first = "| op a: (q) <- (in) { code(1, 0) (1) () { push 0 (input[0]); } }";
    let second = "| op b: (out) <- (q) { code(1, 0) (1) () { push 0 (input[0]); } }";
    let below = "file n.csv\n32 | \\i\nstatus 0\nout\n| # out\n32 | \\i\nend\n";
    let queue = format!(in alloc; "| queue q: rows(1){queue};")?;
    let ops = format!(in alloc; "{first}\n{second}\n{below}")?;
    Ok(format!(in alloc;
        "{head} {words}\n{above}\n{}\n{}",
        queue.as_str(),
        ops.as_str()
    )?)
}

/// How many firings the first operator is ahead of the second, and the most that it was.
#[derive(Drop)]
struct Lead {
    now: AtomicU64,
    most: AtomicU64,
}

impl Lead {
    fn new() -> Self {
        Lead {
            now: AtomicU64::new(0),
            most: AtomicU64::new(0),
        }
    }
}

// An operator enters before what it gives can be taken, so the number is right, and never below 0, on any threads.
impl Gate for Lead {
    fn enter(&self, op: u32) {
        if op == 0 {
            let lead = self.now.fetch_add(1, Ordering::SeqCst).wrapping_add(1);
            self.most.fetch_max(lead, Ordering::SeqCst);
        } else {
            self.now.fetch_sub(1, Ordering::SeqCst);
        }
    }
}

// The top call with this gate.
#[derive(Drop)]
struct Leading {
    alloc: Global,
    gate: Lead,
}

impl Runner for Leading {
    fn run<R: Threads + Wait + Sync>(
        &self,
        rt: &R,
        words: &[Text],
        shelf: &mut MemShelf,
        out: &mut MemSink,
        err: &mut MemSink,
    ) -> u8
        requires { IsSync R.row }
    {
        river(rt, self.alloc, words, shelf, out, err, &self.gate)
    }
}

// The most that the first operator was ahead; None where the case gave something else.
fn lead_of<R: Print + Threads + Wait + Sync>(
    rt: &R,
    alloc: Global,
    words: &str,
    queue: &str,
) -> Result<Option<u64>, Fail> {
    let text = case_of(alloc, words, queue)?;
    let top = Leading {
        alloc,
        gate: Lead::new(),
    };
    if !go_through(rt, alloc, &top, text.as_str())? {
        return Ok(None);
    }
    Ok(Some(top.gate.most.load(Ordering::SeqCst)))
}

/// What a queue of one holds, and what is pending before it, is two items at most; a queue of 64 holds more, by the words of the
/// command or by the text.
#[test]
fn room_is_kept(rt: HostRuntime) -> Result<(), Fail> {
    let alloc = rt.alloc();
    let small = lead_of(&rt, alloc, "-w 1 -q 1", "")?;
    assert!(rt; matches!(small, Some(lead) if lead <= 2));
    let large = lead_of(&rt, alloc, "-w 1 -q 64", "")?;
    assert!(rt; matches!(large, Some(lead) if lead > 2));
    let small_text = lead_of(&rt, alloc, "-w 1 -q 64", " cap(1)")?;
    assert!(rt; matches!(small_text, Some(lead) if lead <= 2));
    let large_text = lead_of(&rt, alloc, "-w 1 -q 1", " cap(64)")?;
    assert!(rt; matches!(large_text, Some(lead) if lead > 2));
    Ok(())
}

/// Where waiting tasks run them there is one more: the second operator has taken it and did not enter the gate yet. How much more a
/// larger queue holds is up to the system.
#[test]
fn room_is_kept_by_tasks(rt: HostRuntime) -> Result<(), Fail> {
    let alloc = rt.alloc();
    let small = lead_of(&rt, alloc, "-L -q 1", "")?;
    assert!(rt; matches!(small, Some(lead) if lead <= 3));
    let small_text = lead_of(&rt, alloc, "-L -q 64", " cap(1)")?;
    assert!(rt; matches!(small_text, Some(lead) if lead <= 3));
    Ok(())
}
