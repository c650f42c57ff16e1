// What a Sawzall program does for a record, statement by statement.
ghost use Rattle.std.specs.Prelude.{◌≡◌, [], ◌++◌, flat_map, IfOk, OnOk};
ghost use Rattle.saw_text.specs.Tree.{Declare, Assign, Emit};
ghost use Rattle.saw_model.specs.Meaning.{eval_all, emit_row, listed, exec, exec_block, exec_optional, exec_units, emits};
ghost use Rattle.saw_text.specs.Tree.{expression, option_expression, statement, block, or_unwritten, unit_form, unit_forms};
ghost use Rattle.saw_text.specs.View.{expressions, option_block};
ghost use Rattle.saw_front.specs.Valued.{AreValues, AllValues};
ghost use Rattle.slow_sawzall.specs.Sawzall.{named_values, run_state, do_part, AreEmitted, IsRunnable, AreRunnable, AreRunnableOptional, IsRunnablePart, AreRunnableParts};

use crate::value::{first_value, set, value};
use river_base::{Name, NoMemory, Row};
use saw_text::{Block, Expr, Statement, Unit};
use std::alloc::Global;

/// Where the run stands: the values of the locals that were set for a record, and the rows that all records emitted so far,
/// each with its table.
#[derive(Drop)]
pub(crate) struct Run {
    pub locals: Vec<(Name, i64)>,
    pub emitted: Vec<(Name, Row)>,
}

impl Run {
    /// Before the first record.
    pub fn new(alloc: Global) -> Run
        ensures { result.emitted.items ≡ [] }
    {
        Run {
            locals: Vec::new(alloc),
            emitted: Vec::new(alloc),
        }
    }

    /// What a program does for all records, one after another.
    pub fn records(&mut self, alloc: Global, units: &[Unit], rows: &[Row]) -> Result<(), NoMemory>
        requires { AreRunnableParts (unit_forms units.now) }
        ensures { OnOk result (self.new.emitted.items ≡ self.old.emitted.items ++ flat_map (emits (unit_forms units.now)) rows.now) }
    {
        for row in rows {
            self.record(alloc, units, row)?;
        }
        Ok(())
    }

    // What it does for a record, with fresh locals.
    fn record(&mut self, alloc: Global, units: &[Unit], row: &Row) -> Result<(), NoMemory>
        requires { AreRunnableParts (unit_forms units.now) }
        ensures { OnOk result (self.new.emitted.items ≡ self.old.emitted.items ++ emits (unit_forms units.now) row.now) }
    {
        self.locals.clear();
        self.units(alloc, units, row)
    }

    // All units, one after another.
    fn units(&mut self, alloc: Global, units: &[Unit], row: &Row) -> Result<(), NoMemory>
        requires { AreRunnableParts (unit_forms units.now) }
        ensures { OnOk result (run_state self.new ≡ exec_units (unit_forms units.now) row.now (run_state self.old)) }
    {
        for unit in units {
            self.unit(alloc, unit, row)?;
        }
        Ok(())
    }

    // A unit; a table does nothing.
    fn unit(&mut self, alloc: Global, unit: &Unit, row: &Row) -> Result<(), NoMemory>
        requires { IsRunnablePart (unit_form unit.now) }
        ensures { OnOk result (run_state self.new ≡ do_part (unit_form unit.now) row.now (run_state self.old)) }
    {
        match unit {
            Unit::Table(_) => Ok(()),
            Unit::Statement(statement) => self.statement(alloc, statement, row),
        }
    }

    // The statements of a block.
    #[cycle(statements)]
    fn block(&mut self, alloc: Global, b: &Block, row: &Row) -> Result<(), NoMemory>
        requires { AreRunnable (block b.now) }
        ensures { OnOk result (run_state self.new ≡ exec_block (block b.now) row.now (run_state self.old)) }
    {
        for s in b.statements.as_slice() {
            self.statement(alloc, s, row)?;
        }
        Ok(())
    }

    // A statement.
    #[cycle(statements)]
    fn statement(&mut self, alloc: Global, s: &Statement, row: &Row) -> Result<(), NoMemory>
        requires { IsRunnable (statement s.now) }
        ensures { OnOk result (run_state self.new ≡ exec (statement s.now) row.now (run_state self.old)) }
    {
        match s {
            Statement::Declare { name, value } => self.declare(*name, value, row),
            Statement::Assign { name, value } => self.assign(*name, value, row),
            Statement::Emit {
                table,
                indexes,
                value,
                weight,
            } => self.emit(alloc, *table, indexes.as_slice(), value, weight, row),
            Statement::If { cond, yes, no } => {
                if value(cond, row, self.locals.as_slice()) != 0 {
                    self.block(alloc, yes, row)
                } else {
                    self.otherwise(alloc, no, row)
                }
            }
        }
    }

    // The statements behind `else`, where it is written.
    #[cycle(statements)]
    fn otherwise(&mut self, alloc: Global, no: &Option<Block>, row: &Row) -> Result<(), NoMemory>
        requires { AreRunnableOptional (or_unwritten (option_block no.now)) }
        ensures { OnOk result (run_state self.new ≡ exec_optional (or_unwritten (option_block no.now)) row.now (run_state self.old)) }
    {
        match no {
            None => Ok(()),
            Some(b) => self.block(alloc, b, row),
        }
    }

    // A local is declared; without a value it is 0.
    fn declare(&mut self, name: Name, first: &Option<Expr>, row: &Row) -> Result<(), NoMemory>
        requires { AllValues (listed (option_expression first.now)) }
        ensures { OnOk result (run_state self.new ≡ exec (Declare name (option_expression first.now)) row.now (run_state self.old)) }
    {
        let start = first_value(first, row, self.locals.as_slice());
        set(&mut self.locals, name, start)
    }

    // A local is set.
    fn assign(&mut self, name: Name, e: &Expr, row: &Row) -> Result<(), NoMemory>
        requires { AreValues (expression e.now) }
        ensures { OnOk result (run_state self.new ≡ exec (Assign name (expression e.now)) row.now (run_state self.old)) }
    {
        let next = value(e, row, self.locals.as_slice());
        set(&mut self.locals, name, next)
    }

    // A row is emitted to a table.
    fn emit(
        &mut self,
        alloc: Global,
        table: Name,
        indexes: &[Expr],
        value: &Expr,
        weight: &Option<Expr>,
        row: &Row,
    ) -> Result<(), NoMemory>
        requires { AreEmitted (expressions indexes.now) (expression value.now) (option_expression weight.now) }
        ensures { OnOk result (run_state self.new
            ≡ exec (Emit table (expressions indexes.now) (expression value.now) (option_expression weight.now)) row.now (run_state self.old)) }
    {
        let made = emitted_row(alloc, indexes, value, weight, row, self.locals.as_slice())?;
        self.emitted.push((table, made))?;
        Ok(())
    }
}

// The row of an emit: the indexes, the value, the weight.
fn emitted_row(
    alloc: Global,
    indexes: &[Expr],
    first: &Expr,
    weight: &Option<Expr>,
    row: &Row,
    locals: &[(Name, i64)],
) -> Result<Row, NoMemory>
    requires { AreEmitted (expressions indexes.now) (expression first.now) (option_expression weight.now) }
    ensures { IfOk result (λ made. made
        ≡ eval_all (emit_row (expressions indexes.now) (expression first.now) (option_expression weight.now)) row.now (named_values locals.now)) }
{
    let mut values = Vec::new(alloc);
    add_values(&mut values, indexes, row, locals)?;
    values.push(value(first, row, locals))?;
    add_weight(&mut values, weight, row, locals)?;
    Ok(Row::from_slice(values.as_slice()))
}

// The value of a weight, where there is one, behind those that are there.
fn add_weight(
    values: &mut Vec<i64>,
    weight: &Option<Expr>,
    row: &Row,
    locals: &[(Name, i64)],
) -> Result<(), NoMemory>
    requires { AllValues (listed (option_expression weight.now)) }
    ensures { OnOk result (values.new.items ≡ values.old.items ++ eval_all (listed (option_expression weight.now)) row.now (named_values locals.now)) }
{
    if let Some(weight) = weight {
        values.push(value(weight, row, locals))?;
    }
    Ok(())
}

// The values of expressions, behind those that are there.
fn add_values(
    values: &mut Vec<i64>,
    es: &[Expr],
    row: &Row,
    locals: &[(Name, i64)],
) -> Result<(), NoMemory>
    requires { AllValues (expressions es.now) }
    ensures { OnOk result (values.new.items ≡ values.old.items ++ eval_all (expressions es.now) row.now (named_values locals.now)) }
{
    for e in es {
        values.push(value(e, row, locals))?;
    }
    Ok(())
}
