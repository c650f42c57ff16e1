// Statements that hold no block.
ghost use Rattle.std.specs.Prelude.{◌≡◌, ◌<◌, ◌≤◌, ◌+◌, OnOk, IfOk};
ghost use Rattle.work_code.specs.Term.{term};
ghost use Rattle.streamit_model.specs.Elaborate.{find, is_new, slot_of, step_of, steps_of, constant, bound_of, on_ok, first_term, first_popped};
ghost use Rattle.streamit_text.specs.Tree.{Declare, Assign, Push, expression, option_expression, in_turn};
ghost use Rattle.streamit_unroll.specs.Lean.{discards};
ghost use Rattle.streamit_unroll.specs.View.{Judges};
ghost use Rattle.streamit_unroll.specs.Unrolling.{at_of, Reads, AreOptional};
ghost use Rattle.streamit_unroll.specs.Numbers.{AreValues};

use crate::term::{constant, term};
use crate::{Known, RefusedUnit, Unroller};
use river_base::{MOST_ITEMS, MOST_SLOTS, Name, NoMemory};
use std::alloc::Global;
use streamit_model::Fault;
use streamit_text::Expr as Written;
use work_code::{Expr, Exprs, Stmt, Stmts};

impl Unroller {
    // A name is not known yet.
    pub fn new_name(&self, name: Name) -> Result<(), RefusedUnit>
        ensures { Judges (λ u. u) result (is_new (find (at_of self.now).scope name)) }
    {
        match self.names.find(name) {
            None => Ok(()),
            Some(_) => Err(RefusedUnit::Fault(Fault::NameTwice)),
        }
    }

    // A bound of a loop.
    pub fn bound(&self, tree: &Written) -> Result<u32, RefusedUnit>
        requires { AreValues (expression tree.now) }
        ensures judged { Judges (λ n. n) result (on_ok (constant (at_of self.now).scope (expression tree.now)) bound_of) }
        ensures small { IfOk result (λ n. n ≤ 65536) }
    {
        let value = constant(&self.names, tree)?;
        if 0 <= value && value <= MOST_ITEMS as i64 {
            Ok(value as u32)
        } else {
            Err(RefusedUnit::Fault(Fault::Limit))
        }
    }

    // `push(e);`
    pub fn push(
        &mut self,
        alloc: Global,
        peek: u32,
        value: &Written,
        out: &mut Stmts,
    ) -> Result<(), RefusedUnit>
        requires { AreValues (expression value.now) }
        ensures { Reads result out.old out.new self.old self.new (step_of peek (Push (expression value.now)) (at_of self.old)) }
    {
        self.counted()?;
        self.pushed = next(self.pushed)?;
        let value = term(alloc, &self.names, peek, value, &mut self.popped)?;
        let mut values = Exprs::new(alloc);
        values.push(value)?;
        out.push(Stmt::Push { port: 0, values })?;
        Ok(())
    }

    // So many `pop();`, one after another.
    pub fn pops(&mut self, peek: u32, count: u32, out: &mut Stmts) -> Result<(), RefusedUnit>
        ensures { Reads result out.old out.new self.old self.new (steps_of peek (in_turn (discards count)) (at_of self.old)) }
    {
        match self.popped.checked_add(count) {
            Some(popped) => {
                self.popped = popped;
                Ok(())
            }
            None => Err(RefusedUnit::NoMemory),
        }
    }

    // `NAME = e;`
    pub fn assign(
        &mut self,
        alloc: Global,
        peek: u32,
        name: Name,
        value: &Written,
        out: &mut Stmts,
    ) -> Result<(), RefusedUnit>
        requires { AreValues (expression value.now) }
        ensures { Reads result out.old out.new self.old self.new (step_of peek (Assign name (expression value.now)) (at_of self.old)) }
    {
        self.counted()?;
        let slot = self.slot_of(name)?;
        let value = term(alloc, &self.names, peek, value, &mut self.popped)?;
        out.push(Stmt::Set { slot, value })?;
        Ok(())
    }

    // The slot that an assignment sets.
    fn slot_of(&self, name: Name) -> Result<u32, RefusedUnit>
        ensures { Judges (λ n. n) result (slot_of (find (at_of self.now).scope name)) }
    {
        match self.names.find(name) {
            None => Err(RefusedUnit::Fault(Fault::UnknownName)),
            Some(Known::Var(slot)) => Ok(slot),
            Some(Known::Turn(_)) => Err(RefusedUnit::Fault(Fault::NotConstant)),
        }
    }

    // `int NAME = e;`
    pub fn declare(
        &mut self,
        alloc: Global,
        peek: u32,
        name: Name,
        value: &Option<Written>,
        out: &mut Stmts,
    ) -> Result<(), RefusedUnit>
        requires { AreOptional (option_expression value.now) }
        ensures { Reads result out.old out.new self.old self.new (step_of peek (Declare name (option_expression value.now)) (at_of self.old)) }
    {
        self.counted()?;
        self.new_name(name)?;
        let slot = self.slots;
        if slot >= MOST_SLOTS {
            return Err(RefusedUnit::Fault(Fault::Limit));
        }
        let value = self.first_term(alloc, peek, value)?;
        out.push(Stmt::Set { slot, value })?;
        self.slots = slot + 1;
        self.names.items.push((name, Known::Var(slot)))?;
        Ok(())
    }

    // The first value of a local.
    fn first_term(
        &mut self,
        alloc: Global,
        peek: u32,
        value: &Option<Written>,
    ) -> Result<Expr, RefusedUnit>
        requires { AreOptional (option_expression value.now) }
        ensures judged { Judges term result (first_term peek (option_expression value.now) (at_of self.old)) }
        ensures popped { OnOk result (at_of self.new ≡ record (at_of self.old) { popped = self.old.popped + first_popped (option_expression value.now) }) }
        ensures names { self.new.names ≡ self.old.names }
    {
        match value {
            None => Ok(Expr::Const(0)),
            Some(value) => term(alloc, &self.names, peek, value, &mut self.popped),
        }
    }
}

// The number behind this one.
pub(crate) fn next(number: u32) -> Result<u32, NoMemory>
    ensures { IfOk result (λ n. n ≡ number + 1) }
{
    match number.checked_add(1) {
        Some(n) => Ok(n),
        None => Err(NoMemory),
    }
}
