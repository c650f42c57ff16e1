// Blocks.
ghost use Rattle.std.specs.Prelude.{◌≡◌, ◌≤◌, ◌+◌, ◌-◌, if◌then◌else◌};
ghost use Rattle.streamit_model.specs.Elaborate.{step_of, steps_of, optional_of, unrolled};
ghost use Rattle.streamit_text.specs.Tree.{If, expression, is_turn, block, in_turn};
ghost use Rattle.streamit_model.specs.Meaning.{numbers_from};
ghost use Rattle.streamit_unroll.specs.Numbers.{AreValues};
ghost use Rattle.streamit_unroll.specs.Lean.{lean, lean_block, lean_optional};
ghost use Rattle.streamit_unroll.specs.View.{Judges};
ghost use Rattle.streamit_unroll.specs.Unrolling.{at_of, Reads, ReadsArm, ReadsTurn, turn_of, turns_of, span, AreWritten, AreWrittenOptional};

use crate::lean::{Lean, LeanBlock, lean_block};
use crate::term::term;
use crate::{Known, RefusedUnit, Unroller};
use river_base::Name;
use std::alloc::Global;
use streamit_model::Fault;
use streamit_text::{Block, Expr, Until};
use work_code::{Stmt, Stmts};

impl Unroller {
    // The statements of a block, behind those that are there.
    pub fn all(
        &mut self,
        alloc: Global,
        peek: u32,
        b: &Block,
        out: &mut Stmts,
    ) -> Result<(), RefusedUnit>
        requires { AreWritten (block b.now) }
        ensures { Reads result out.old out.new self.old self.new (steps_of peek (block b.now) (at_of self.old)) }
    {
        let lean = lean_block(alloc, b)?;
        self.block(alloc, peek, &lean, out)
    }

    // The statements of a block, likewise.
    #[cycle(unroll)]
    fn block(
        &mut self,
        alloc: Global,
        peek: u32,
        b: &LeanBlock<'_>,
        out: &mut Stmts,
    ) -> Result<(), RefusedUnit>
        requires { AreWritten (lean_block b.now) }
        ensures { Reads result out.old out.new self.old self.new (steps_of peek (lean_block b.now) (at_of self.old)) }
    {
        for s in b.items.as_slice() {
            self.statement(alloc, peek, s, out)?;
        }
        Ok(())
    }

    // A statement, behind those that are there.
    #[cycle(unroll)]
    fn statement(
        &mut self,
        alloc: Global,
        peek: u32,
        s: &Lean<'_>,
        out: &mut Stmts,
    ) -> Result<(), RefusedUnit>
        requires { AreWritten (in_turn (lean s.now)) }
        ensures { Reads result out.old out.new self.old self.new (steps_of peek (in_turn (lean s.now)) (at_of self.old)) }
    {
        match s {
            Lean::Push(value) => self.push(alloc, peek, value, out),
            Lean::Pops(count) => self.pops(peek, *count, out),
            Lean::Declare { name, value } => self.declare(alloc, peek, *name, value, out),
            Lean::Assign { name, value } => self.assign(alloc, peek, *name, value, out),
            Lean::If { cond, yes, no } => self.branch(alloc, peek, cond, yes, no, out),
            Lean::For {
                name,
                low,
                until,
                high,
                body,
            } => {
                let span = self.span(*name, low, *until, high)?;
                self.turns(alloc, peek, *name, span, body, out)
            }
        }
    }

    // An `if`, whose arms pop and push as many items.
    #[cycle(unroll)]
    fn branch(
        &mut self,
        alloc: Global,
        peek: u32,
        cond: &Expr,
        yes: &LeanBlock<'_>,
        no: &Option<LeanBlock<'_>>,
        out: &mut Stmts,
    ) -> Result<(), RefusedUnit>
        requires cond { AreValues (expression cond.now) }
        requires yes { AreWritten (lean_block yes.now) }
        requires no { AreWrittenOptional (lean_optional no.now) }
        ensures { Reads result out.old out.new self.old self.new
            (step_of peek (If (expression cond.now) (lean_block yes.now) (lean_optional no.now)) (at_of self.old)) }
    {
        self.counted()?;
        let cond = term(alloc, &self.names, peek, cond, &mut self.popped)?;
        let popped = self.popped;
        let pushed = self.pushed;
        let first = self.arm(alloc, peek, yes)?;
        let popped_first = self.popped;
        let pushed_first = self.pushed;
        self.popped = popped;
        self.pushed = pushed;
        let second = self.otherwise(alloc, peek, no)?;
        if popped_first == self.popped && pushed_first == self.pushed {
            out.push(Stmt::If {
                cond,
                yes: first,
                no: second,
            })?;
            Ok(())
        } else {
            Err(RefusedUnit::Fault(Fault::BranchRates))
        }
    }

    // The statements of the second arm, none where it is not written.
    #[cycle(unroll)]
    fn otherwise(
        &mut self,
        alloc: Global,
        peek: u32,
        no: &Option<LeanBlock<'_>>,
    ) -> Result<Stmts, RefusedUnit>
        requires { AreWrittenOptional (lean_optional no.now) }
        ensures { ReadsArm result self.old self.new (optional_of peek (lean_optional no.now) (at_of self.old)) }
    {
        match no {
            Some(block) => self.arm(alloc, peek, block),
            None => Ok(Stmts::new(alloc)),
        }
    }

    // The statements of an arm of an `if`; what was declared there is not known afterwards.
    #[cycle(unroll)]
    fn arm(&mut self, alloc: Global, peek: u32, b: &LeanBlock<'_>) -> Result<Stmts, RefusedUnit>
        requires { AreWritten (lean_block b.now) }
        ensures { ReadsArm result self.old self.new (steps_of peek (lean_block b.now) (at_of self.old)) }
    {
        let depth = self.names.items.len();
        let mut body = Stmts::new(alloc);
        self.block(alloc, peek, b, &mut body)?;
        self.names.items.truncate(depth);
        Ok(body)
    }

    // The turns of a loop, whose variable has a new name.
    fn span(&self, name: Name, low: &Expr, until: Until, high: &Expr) -> Result<Span, RefusedUnit>
        requires low { AreValues (expression low.now) }
        requires high { AreValues (expression high.now) }
        ensures { Judges span result (turns_of (at_of self.now).scope name (expression low.now) (is_turn until) (expression high.now)) }
    {
        self.new_name(name)?;
        let low = self.bound(low)?;
        let high = self.bound(high)?;
        Ok(Span {
            low,
            end: end_of(high, until),
        })
    }

    // A block for each turn, behind the statements that are there.
    #[cycle(unroll)]
    fn turns(
        &mut self,
        alloc: Global,
        peek: u32,
        name: Name,
        span: Span,
        b: &LeanBlock<'_>,
        out: &mut Stmts,
    ) -> Result<(), RefusedUnit>
        requires { AreWritten (lean_block b.now) }
        ensures { Reads result out.old out.new self.old self.new
            (unrolled (steps_of peek (lean_block b.now)) name (numbers_from span.low (span.end - span.low)) (at_of self.old)) }
    {
        for v in span.low..span.end {
            self.turn(alloc, peek, name, v, b, out)?;
        }
        Ok(())
    }

    // A block for one value of a loop's variable, behind the statements that are there.
    #[cycle(unroll)]
    fn turn(
        &mut self,
        alloc: Global,
        peek: u32,
        name: Name,
        v: u32,
        b: &LeanBlock<'_>,
        out: &mut Stmts,
    ) -> Result<(), RefusedUnit>
        requires { AreWritten (lean_block b.now) }
        ensures { ReadsTurn result out.old out.new self.old self.new (turn_of (steps_of peek (lean_block b.now)) name v (at_of self.old)) }
    {
        self.counted()?;
        let depth = self.names.items.len();
        self.names.items.push((name, Known::Turn(v)))?;
        self.block(alloc, peek, b, out)?;
        self.names.items.truncate(depth);
        Ok(())
    }
}

// The turns of a loop: the first value of its variable, and the one behind the last.
#[derive(Clone, Copy)]
struct Span {
    low: u32,
    end: u32,
}

// Where the turns of a loop end.
fn end_of(high: u32, until: Until) -> u32
    requires { high ≤ 65536 }
    ensures { result ≡ high + (if is_turn until then 1 else 0) }
{
    match until {
        Until::Below => high,
        Until::UpTo => high + 1,
    }
}
