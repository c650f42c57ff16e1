// A gate that counts what enters: as often as the firings that are printed.
ghost use Rattle.std.specs.Thread.{IsSync};

use river_base::{Gate, Text};
use river_cli::river;
use river_outside::{MemShelf, MemSink};
use std::alloc::Global;
use std::str;
use std::sync::Wait;
use std::sync::atomic::{AtomicU64, Ordering};
use std::test::Fail;
use std::thread::Threads;
use worked_cases::{Runner, go_through};

// The status that is told where the counts are others than those printed.
const MISCOUNTED: u8 = 99;

// A filter that peeks; a tally in three replicas; a query with a condition that was hoisted and columns in four replicas; a filter in
// eight, which makes ten operators.
const CASES: &str = "\
cases 4
case a filter that peeks
words run streamit sum.str in=n.csv -w 2 -c
file sum.str
| int->int filter Sum { work push 1 pop 1 peek 3 { push(peek(0) + peek(1) + peek(2)); pop(); } }
file n.csv
| 1
| 2
| 3
| 4
status 0
out
| # out
| 6
| 9
| ## firings
| Sum@1,4
end
case a tally in three replicas
words run sawzall tally.saw in=r.csv -r split -w 2 -c
file tally.saw
| count: table sum of int;
| total: table sum[k: int] of v: int;
| emit count <- 1;
| emit total[input[0]] <- input[1];
file split
| fuse count@q; fuse total@q; fission map 3;
file r.csv
| 1,5
| 2,7
| 1,-5
status 0
out
| # count
| 3
| # total
| 1,0
| 2,7
| ## firings
| map@d,3
| map@1,1
| map@2,1
| map@3,1
end
case quotes, whose columns are reckoned by four replicas
words run cql p.cql Quotes=quotes.csv -H -r split -w 2 -c
file p.cql
| Register Stream Quotes (sym, price);
| Query high: Select Istream(q.sym, q.price) From Quotes [Range 2 Seconds] As q Where q.price > 10145;
file split
| hoist high@s; fission high@p 4;
file quotes.csv
| time,sym,price
| 34200,1,10150
| 34200,2,2210
| 34201,1,10155
| 34203,1,10140
| 34203,2,2215
status 0
out
| # high
| 34200,1,10150
| 34201,1,10155
| ## firings
| high@s,3
| high@w1,3
| high@p@d,3
| high@p@1,1
| high@p@2,1
| high@p@3,1
| high@p@4,0
| high@p@j,3
| high@i,3
end
case a filter in eight replicas
words run streamit twice.str in=n.csv -r split -w 3 -c
file twice.str
| int->int filter Twice { work push 1 pop 1 { push(2 * pop()); } }
file split
| fission Twice@1 8;
file n.csv
9 | \\i
status 0
out
| # out
| 2
| 4
| 6
| 8
| 10
| 12
| 14
| 16
| 18
| ## firings
| Twice@1@d,9
| Twice@1@1,2
| Twice@1@2,1
| Twice@1@3,1
| Twice@1@4,1
| Twice@1@5,1
| Twice@1@6,1
| Twice@1@7,1
| Twice@1@8,1
| Twice@1@j,9
end
";

/// Counts the firings of the first operators, one by one, and those of all others.
#[derive(Drop)]
struct Counts {
    of: [AtomicU64; 10],
    others: AtomicU64,
}

impl Counts {
    fn new() -> Self {
        Counts {
            of: [
                AtomicU64::new(0),
                AtomicU64::new(0),
                AtomicU64::new(0),
                AtomicU64::new(0),
                AtomicU64::new(0),
                AtomicU64::new(0),
                AtomicU64::new(0),
                AtomicU64::new(0),
                AtomicU64::new(0),
                AtomicU64::new(0),
            ],
            others: AtomicU64::new(0),
        }
    }

    // How often this operator fired.
    fn count(&self, op: usize) -> Option<u64> {
        match self.of.get(op) {
            Some(number) => Some(number.load(Ordering::SeqCst)),
            None => None,
        }
    }

    // Whether the firings that a text prints, operator by operator, are those that were counted, and there were no others.
    fn agree_with(&self, printed: &str) -> bool {
        let Some((_, firings)) = printed.split_once("## firings\n") else {
            return false;
        };
        let mut lines = 0;
        for (op, line) in firings.lines().enumerate() {
            if number_in(line) != self.count(op) {
                return false;
            }
            lines = op + 1;
        }
        self.rest_from(lines) == 0
    }

    // How often the operators fired that no line names.
    fn rest_from(&self, lines: usize) -> u64 {
        let mut rest = self.others.load(Ordering::SeqCst);
        for op in lines..self.of.len() {
            rest = rest.saturating_add(self.count(op).unwrap_or(0));
        }
        rest
    }
}

// The number behind the comma.
fn number_in(line: &str) -> Option<u64> {
    let (_, number) = line.split_once(',')?;
    number.parse::<u64>().ok()
}

impl Gate for Counts {
    fn enter(&self, op: u32) {
        let number = self.of.get(op as usize).unwrap_or(&self.others);
        number.fetch_add(1, Ordering::SeqCst);
    }
}

// The top call with such a gate for each run.
#[derive(Drop)]
struct Counted {
    alloc: Global,
}

impl Runner for Counted {
    fn run<R: Threads + Wait + Sync>(
        &self,
        rt: &R,
        words: &[Text],
        shelf: &mut MemShelf,
        out: &mut MemSink,
        err: &mut MemSink,
    ) -> u8
        requires { IsSync R.row }
    {
        let gate = Counts::new();
        let status = river(rt, self.alloc, words, shelf, out, err, &gate);
        match str::from_utf8(out.taken()) {
            Ok(printed) if gate.agree_with(printed) => status,
            _ => MISCOUNTED,
        }
    }
}

#[test]
fn what_is_printed_was_fired(rt: HostRuntime) -> Result<(), Fail> {
    let top = Counted { alloc: rt.alloc() };
    assert!(rt; go_through(&rt, rt.alloc(), &top, CASES)?);
    Ok(())
}
