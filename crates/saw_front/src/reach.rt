// How many fields of a record a program reads.
ghost use Rattle.std.specs.Prelude.{◌≡◌, max};
ghost use Rattle.saw_model.specs.Meaning.{reach, reach_all, reach_statement, reach_block, reach_optional, reach_parts, listed, emit_row};
ghost use Rattle.saw_text.specs.Tree.{expression, option_expression, statement, block, or_unwritten, unit_form, unit_forms};
ghost use Rattle.saw_text.specs.View.{expressions, option_block};
ghost use Rattle.saw_front.specs.Reach.{reach_unit};

use saw_text::{Block, Expr, Statement, Unit};

// The greater of two numbers.
fn greater(a: u64, b: u64) -> u64
    ensures { result ≡ max a b }
{
    if a < b { b } else { a }
}

// Those that an expression reads.
fn reach(e: &Expr) -> u64
    ensures { result ≡ reach (expression e.now) }
{
    match e {
        Expr::Number(_) | Expr::Name(_) => 0,
        Expr::Input(place) => u64::from(*place) + 1,
        Expr::Neg(inner) | Expr::Not(inner) => reach(inner),
        Expr::Bin { left, right, .. } => greater(reach(left), reach(right)),
    }
}

// Those that an expression reads, where there is one.
fn reach_first(e: &Option<Expr>) -> u64
    ensures { result ≡ reach_all (listed (option_expression e.now)) }
{
    match e {
        None => 0,
        Some(e) => reach(e),
    }
}

// Those that expressions read.
fn reach_all(es: &[Expr]) -> u64
    ensures { result ≡ reach_all (expressions es.now) }
{
    let mut most = 0;
    for e in es {
        most = greater(most, reach(e));
    }
    most
}

// Those that an emit reads.
#[tactic(auto, using(crate::proofs::Reaching::reaches))]
fn reach_emit(indexes: &[Expr], value: &Expr, weight: &Option<Expr>) -> u64
    ensures { result ≡ reach_all (emit_row (expressions indexes.now) (expression value.now) (option_expression weight.now)) }
{
    greater(
        reach_all(indexes),
        greater(reach(value), reach_first(weight)),
    )
}

// Those that a statement reads.
#[cycle(statements)]
fn reach_statement(s: &Statement) -> u64
    ensures { result ≡ reach_statement (statement s.now) }
{
    match s {
        Statement::Declare { value, .. } => reach_first(value),
        Statement::Assign { value, .. } => reach(value),
        Statement::Emit {
            indexes,
            value,
            weight,
            ..
        } => reach_emit(indexes.as_slice(), value, weight),
        Statement::If { cond, yes, no } => greater(
            reach(cond),
            greater(reach_block(yes), reach_else(no)),
        ),
    }
}

// Those that a block reads.
#[cycle(statements)]
fn reach_block(b: &Block) -> u64
    ensures { result ≡ reach_block (block b.now) }
{
    let mut most = 0;
    for s in b.statements.as_slice() {
        most = greater(most, reach_statement(s));
    }
    most
}

// Those that the block behind `else` reads, where it is written.
#[cycle(statements)]
fn reach_else(no: &Option<Block>) -> u64
    ensures { result ≡ reach_optional (or_unwritten (option_block no.now)) }
{
    match no {
        None => 0,
        Some(b) => reach_block(b),
    }
}

// Those that a unit reads.
fn reach_unit(unit: &Unit) -> u64
    ensures { result ≡ reach_unit (unit_form unit.now) }
{
    match unit {
        Unit::Table(_) => 0,
        Unit::Statement(statement) => reach_statement(statement),
    }
}

/// Those that all units read.
pub(crate) fn reach_units(units: &[Unit]) -> u64
    ensures { result ≡ reach_parts (unit_forms units.now) }
{
    let mut most = 0;
    for unit in units {
        most = greater(most, reach_unit(unit));
    }
    most
}
