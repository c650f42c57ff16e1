// Statements that hold no block.
ghost use Rattle.std.specs.Prelude.{◌≡◌, ◌<◌};
ghost use Rattle.work_code.specs.Term.{term, terms};
ghost use Rattle.saw_model.specs.Elaborate.{first_term, indexes_of, keys_in, weight_of, step_of};
ghost use Rattle.saw_text.specs.Tree.{Declare, Assign, Emit};
ghost use Rattle.saw_model.specs.Meaning.{listed};
ghost use Rattle.saw_text.specs.Tree.{expression, option_expression};
ghost use Rattle.saw_text.specs.View.{expressions};
ghost use Rattle.saw_front.specs.View.{option_terms, Judges};
ghost use Rattle.saw_front.specs.Judging.{at_of, Reads, row_of};
ghost use Rattle.saw_front.specs.Valued.{AreValues, AllValues};

use crate::judge::Judge;
use crate::names::Known;
use crate::refused::RefusedUnit;
use crate::term::term;
use kern_tables::TableKind;
use river_base::{MOST_SLOTS, Name};
use saw_model::Fault;
use saw_text::Expr as Written;
use std::alloc::Global;
use work_code::{Expr, Exprs, Stmt, Stmts};

// How many keys a table of this kind has.
fn keys_in(kind: TableKind) -> u32
    ensures { result ≡ keys_in kind }
{
    match kind {
        TableKind::Sum { keys }
        | TableKind::Collection { keys }
        | TableKind::Maximum { keys, .. } => keys,
    }
}

impl Judge {
    // `NAME: int = e;`
    pub fn declare(
        &mut self,
        alloc: Global,
        name: Name,
        value: &Option<Written>,
        out: &mut Stmts,
    ) -> Result<(), RefusedUnit>
        requires { AllValues (listed (option_expression value.now)) }
        ensures { Reads result out.old out.new self.old self.new (step_of (Declare name (option_expression value.now)) (at_of self.old)) }
    {
        self.counted()?;
        self.new_name(&name)?;
        let slot = self.slots;
        if slot >= MOST_SLOTS {
            return Err(RefusedUnit::Fault(Fault::Limit));
        }
        let value = self.first_term(alloc, value)?;
        self.slots = slot + 1;
        self.names.items.push((name, Known::Slot(slot)))?;
        out.push(Stmt::Set { slot, value })?;
        Ok(())
    }

    // The first value of a local.
    fn first_term(&self, alloc: Global, value: &Option<Written>) -> Result<Expr, RefusedUnit>
        requires { AllValues (listed (option_expression value.now)) }
        ensures { Judges term result (first_term (option_expression value.now) (at_of self.now).scope) }
    {
        match value {
            None => Ok(Expr::Const(0)),
            Some(value) => term(alloc, &self.names, value),
        }
    }

    // `NAME = e;`
    pub fn assign(
        &mut self,
        alloc: Global,
        name: &Name,
        value: &Written,
        out: &mut Stmts,
    ) -> Result<(), RefusedUnit>
        requires { AreValues (expression value.now) }
        ensures { Reads result out.old out.new self.old self.new (step_of (Assign name.now (expression value.now)) (at_of self.old)) }
    {
        self.counted()?;
        let slot = self.slot_of(name)?;
        let value = term(alloc, &self.names, value)?;
        out.push(Stmt::Set { slot, value })?;
        Ok(())
    }

    // `emit NAME[e] .. <- e weight e;`
    pub fn emit(
        &mut self,
        alloc: Global,
        table: &Name,
        indexes: &[Written],
        value: &Written,
        weight: &Option<Written>,
        out: &mut Stmts,
    ) -> Result<(), RefusedUnit>
        requires indexes { AllValues (expressions indexes.now) }
        requires value { AreValues (expression value.now) }
        requires weight { AllValues (listed (option_expression weight.now)) }
        ensures { Reads result out.old out.new self.old self.new
            (step_of (Emit table.now (expressions indexes.now) (expression value.now) (option_expression weight.now)) (at_of self.old)) }
    {
        self.counted()?;
        let (port, kind) = self.port_of(table)?;
        let values = self.row(alloc, kind, indexes, value, weight)?;
        out.push(Stmt::Push { port, values })?;
        Ok(())
    }

    // The values of an emit to a table of this kind.
    fn row(
        &self,
        alloc: Global,
        kind: TableKind,
        indexes: &[Written],
        value: &Written,
        weight: &Option<Written>,
    ) -> Result<Exprs, RefusedUnit>
        requires indexes { AllValues (expressions indexes.now) }
        requires value { AreValues (expression value.now) }
        requires weight { AllValues (listed (option_expression weight.now)) }
        ensures { Judges terms result (row_of (at_of self.now).scope kind (expressions indexes.now) (expression value.now) (option_expression weight.now)) }
    {
        let mut values = self.indexes(alloc, indexes)?;
        if indexes.len() != keys_in(kind) as usize {
            return Err(RefusedUnit::Fault(Fault::Shape));
        }
        values.push(term(alloc, &self.names, value)?)?;
        if let Some(weight) = self.weight(alloc, kind, weight)? {
            values.push(weight)?;
        }
        Ok(values)
    }

    // The indexes of an emit.
    fn indexes(&self, alloc: Global, indexes: &[Written]) -> Result<Exprs, RefusedUnit>
        requires { AllValues (expressions indexes.now) }
        ensures { Judges terms result (indexes_of (at_of self.now).scope 0 (expressions indexes.now)) }
    {
        let mut list = Exprs::new(alloc);
        for i in 0..indexes.len() {
            if i >= 8 {
                return Err(RefusedUnit::Fault(Fault::Limit));
            }
            list.push(term(alloc, &self.names, &indexes[i])?)?;
        }
        Ok(list)
    }

    // The weight of an emit, which a maximum has and no other table.
    fn weight(
        &self,
        alloc: Global,
        kind: TableKind,
        weight: &Option<Written>,
    ) -> Result<Option<Expr>, RefusedUnit>
        requires { AllValues (listed (option_expression weight.now)) }
        ensures { Judges option_terms result (weight_of kind (option_expression weight.now) (at_of self.now).scope) }
    {
        match (kind, weight) {
            (TableKind::Maximum { .. }, Some(weight)) => Ok(Some(term(
                alloc,
                &self.names,
                weight,
            )?)),
            (TableKind::Sum { .. } | TableKind::Collection { .. }, None) => Ok(None),
            _ => Err(RefusedUnit::Fault(Fault::Shape)),
        }
    }
}
