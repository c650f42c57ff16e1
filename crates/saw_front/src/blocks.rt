// Blocks.
ghost use Rattle.saw_model.specs.Elaborate.{step_of, steps_of, steps_optional};
ghost use Rattle.saw_text.specs.Tree.{statement, block, or_unwritten};
ghost use Rattle.saw_text.specs.View.{option_block};
ghost use Rattle.saw_front.specs.Judging.{at_of, Reads, ReadsArm};
ghost use Rattle.saw_front.specs.Valued.{IsValued, AreValued, AreValuedOptional};

use crate::judge::Judge;
use crate::refused::RefusedUnit;
use crate::term::term;
use saw_text::{Block, Statement};
use std::alloc::Global;
use work_code::{Stmt, Stmts};

impl Judge {
    // The statements of a block, behind those that are there.
    #[cycle(judge)]
    pub fn block(&mut self, alloc: Global, b: &Block, out: &mut Stmts) -> Result<(), RefusedUnit>
        requires { AreValued (block b.now) }
        ensures { Reads result out.old out.new self.old self.new (steps_of (block b.now) (at_of self.old)) }
    {
        for s in b.statements.as_slice() {
            self.statement(alloc, s, out)?;
        }
        Ok(())
    }

    // A statement, behind those that are there.
    #[cycle(judge)]
    pub fn statement(
        &mut self,
        alloc: Global,
        s: &Statement,
        out: &mut Stmts,
    ) -> Result<(), RefusedUnit>
        requires { IsValued (statement s.now) }
        ensures { Reads result out.old out.new self.old self.new (step_of (statement s.now) (at_of self.old)) }
    {
        match s {
            Statement::Declare { name, value } => self.declare(alloc, *name, value, out),
            Statement::Assign { name, value } => self.assign(alloc, name, value, out),
            Statement::Emit {
                table,
                indexes,
                value,
                weight,
            } => self.emit(alloc, table, indexes.as_slice(), value, weight, out),
            Statement::If { cond, yes, no } => {
                self.counted()?;
                let cond = term(alloc, &self.names, cond)?;
                let first = self.arm(alloc, yes)?;
                let second = self.otherwise(alloc, no)?;
                out.push(Stmt::If {
                    cond,
                    yes: first,
                    no: second,
                })?;
                Ok(())
            }
        }
    }

    // The statements of an arm of an `if`; what was declared there is not known afterwards.
    #[cycle(judge)]
    fn arm(&mut self, alloc: Global, b: &Block) -> Result<Stmts, RefusedUnit>
        requires { AreValued (block b.now) }
        ensures { ReadsArm result self.old self.new (steps_of (block b.now) (at_of self.old)) }
    {
        let depth = self.names.items.len();
        let mut body = Stmts::new(alloc);
        self.block(alloc, b, &mut body)?;
        self.names.items.truncate(depth);
        Ok(body)
    }

    // Those behind `else`, where it is written.
    #[cycle(judge)]
    fn otherwise(&mut self, alloc: Global, no: &Option<Block>) -> Result<Stmts, RefusedUnit>
        requires { AreValuedOptional (or_unwritten (option_block no.now)) }
        ensures { ReadsArm result self.old self.new (steps_optional (or_unwritten (option_block no.now)) (at_of self.old)) }
    {
        match no {
            None => Ok(Stmts::new(alloc)),
            Some(b) => self.arm(alloc, b),
        }
    }
}
