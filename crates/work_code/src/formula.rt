// Expressions as they are kept and as they are run.
ghost use Rattle.std.specs.Prelude.{◌≡◌, ◌≤◌, ◌++◌, [], length, map, drop, IfOk};
ghost use Rattle.std.specs.List.{AllByRecursion};
ghost use Rattle.work_code.specs.Calcs.{calc_term};
ghost use Rattle.work_code.specs.Term.{term, terms};
ghost use Rattle.work_code.specs.Value.{val, IsWithin};

use crate::acts::calcs_of;
use crate::calc::{Calc, calc_of, value_of};
use crate::{Expr, Exprs};
use river_base::NoMemory;
use std::alloc::Global;
use std::marker::Model;

/// An expression over the values of a row, and beside it the form in which it is run. Contracts see the expression.
#[derive(Drop)]
pub struct Formula {
    expr: Expr,
    calc: Calc,
}

impl Model for Formula {
    ghost use Rattle.work_code.specs.declared.expr.Expr.{Expr};
    ghost use Rattle.work_code.specs.ExprsCode.{expr_code};

    ghost Value = { Expr };

    ghost coded = { expr_code };

    ghost use Rattle.std.specs.Prelude.{◌≡◌};
    ghost use Rattle.work_code.specs.Calcs.{calc_term};
    ghost use Rattle.work_code.specs.Term.{term};

    ghost view = { λ f. f.expr };

    ghost invariant = { λ f. calc_term f.calc ≡ term f.expr };
}

impl Formula {
    /// The formula of this expression.
    pub fn of(alloc: Global, expr: Expr) -> Result<Formula, NoMemory>
        ensures { IfOk result (λ formula. formula ≡ expr) }
    {
        let calc = calc_of(alloc, &expr)?;
        Ok(Formula { expr, calc })
    }

    /// The expression.
    pub fn expr(&self) -> &Expr
        ensures { result.now ≡ self.now }
    {
        &self.expr
    }

    /// A formula of the same tree.
    pub fn copy(&self, alloc: Global) -> Result<Formula, NoMemory>
        ensures { IfOk result (λ copy. term copy ≡ term self.now) }
    {
        Formula::of(alloc, self.expr.copy(alloc)?)
    }

    /// The value for a row. Takes no memory.
    pub fn value(&self, row: &[i64]) -> i64
        requires { IsWithin (length row.now) 0 (term self.now) }
        ensures { result ≡ val (term self.now) row.now [] }
    {
        value_of(&self.calc, row, &[])
    }
}

/// A list of expressions over the values of a row, and beside it the forms in which they are run. Contracts see the expressions.
#[derive(Drop)]
pub struct Formulas {
    exprs: Exprs,
    calcs: Vec<Calc>,
}

impl Model for Formulas {
    ghost use Rattle.work_code.specs.declared.expr.Exprs.{Exprs};
    ghost use Rattle.work_code.specs.ExprsCode.{exprs_code};

    ghost Value = { Exprs };

    ghost coded = { exprs_code };

    ghost use Rattle.std.specs.Prelude.{◌≡◌, map};
    ghost use Rattle.work_code.specs.Calcs.{calc_term};
    ghost use Rattle.work_code.specs.Term.{terms};

    ghost view = { λ f. f.exprs };

    ghost invariant = { λ f. map calc_term f.calcs.items ≡ terms f.exprs };
}

impl Formulas {
    /// The formulas of these expressions.
    pub fn of(alloc: Global, exprs: Exprs) -> Result<Formulas, NoMemory>
        ensures { IfOk result (λ formulas. formulas ≡ exprs) }
    {
        let calcs = calcs_of(alloc, &exprs)?;
        Ok(Formulas { exprs, calcs })
    }

    /// The expressions.
    pub fn exprs(&self) -> &Exprs
        ensures { result.now ≡ self.now }
    {
        &self.exprs
    }

    /// How many there are.
    pub fn len(&self) -> usize
        ensures { result ≡ length (terms self.now) }
    {
        self.calcs.len()
    }

    /// Formulas of the same trees.
    pub fn copy(&self, alloc: Global) -> Result<Formulas, NoMemory>
        ensures { IfOk result (λ copy. terms copy ≡ terms self.now) }
    {
        Formulas::of(alloc, self.exprs.copy(alloc)?)
    }

    /// Puts their values for a row at the begin of a list that has a place for each. Takes no memory.
    pub fn put_values(&self, row: &[i64], to: &mut [i64])
        requires room { length (terms self.now) ≤ length to.old }
        requires within { AllByRecursion (IsWithin (length row.now) 0) (terms self.now) }
        ensures { to.new ≡ map (λ t. val t row.now []) (terms self.now) ++ drop (length (terms self.now)) to.old }
    {
        values_to(self.calcs.as_slice(), row, to);
    }
}

// Puts the values for a row at the begin of a list.
fn values_to(calcs: &[Calc], row: &[i64], to: &mut [i64])
    requires room { length calcs.now ≤ length to.old }
    requires within { AllByRecursion (IsWithin (length row.now) 0) (map calc_term calcs.now) }
    ensures { to.new ≡ map (λ t. val t row.now []) (map calc_term calcs.now) ++ drop (length calcs.now) to.old }
{
    for (i, calc) in calcs.iter().enumerate() {
        to[i] = value_of(calc, row, &[]);
    }
}
