// The values of scalars in a tuple, which has a row for each input.
ghost use Rattle.std.specs.Prelude.{◌≡◌};
ghost use Rattle.cql_model.specs.KernelWords.{oper_of};
ghost use Rattle.cql_model.specs.Meaning.{field_in, field_value, item_value, or_zero, eval};
ghost use Rattle.cql_text.specs.Tree.{scalar};
ghost use Rattle.slow_cql.specs.Kept.{input_scope};

use crate::kept::Input;
use cql_text::{Operator, Scalar};
use river_base::{Name, Row};
use work_code::{BinOp, apply, negate, truth_of};

// The value of a field in a row with these fields.
fn value_in(fields: &[Name], field: Name, row: &Row) -> Option<i64>
    ensures { result ≡ field_in field fields.now row.now }
{
    let values = row.values();
    for i in 0..fields.len().min(values.len()) {
        if fields[i] == field {
            return Some(values[i]);
        }
    }
    None
}

// The value of a field: of the first input that has the field.
fn field_value(inputs: &[Input<'_>], field: Name, tuple: &[Row]) -> Option<i64>
    ensures { result ≡ field_value field (input_scope inputs.now) tuple.now }
{
    for i in 0..inputs.len().min(tuple.len()) {
        match value_in(inputs[i].fields, field, &tuple[i]) {
            None => {}
            found => {
                return found;
            }
        }
    }
    None
}

// The value of a field of the first input of this name.
fn item_value(inputs: &[Input<'_>], item: Name, field: Name, tuple: &[Row]) -> Option<i64>
    ensures { result ≡ item_value item field (input_scope inputs.now) tuple.now }
{
    for i in 0..inputs.len().min(tuple.len()) {
        if inputs[i].name == item {
            return value_in(inputs[i].fields, field, &tuple[i]);
        }
    }
    None
}

// The value that is there, or 0.
fn or_zero(value: Option<i64>) -> i64
    ensures { result ≡ or_zero value }
{
    match value {
        Some(value) => value,
        None => 0,
    }
}

/// The value of a scalar in a tuple of these inputs.
pub(crate) fn value(inputs: &[Input<'_>], expr: &Scalar, tuple: &[Row]) -> i64
    ensures { result ≡ eval (input_scope inputs.now) (scalar expr.now) tuple.now }
{
    match expr {
        Scalar::Number(number) => number.value as i64,
        Scalar::Field(field) => or_zero(field_value(inputs, *field, tuple)),
        Scalar::ItemField(item, field) => or_zero(item_value(inputs, *item, *field, tuple)),
        Scalar::Neg(inner) => negate(value(inputs, inner, tuple)),
        Scalar::Not(inner) => truth_of(value(inputs, inner, tuple) == 0),
        Scalar::Bin { op, left, right } => {
            let left = value(inputs, left, tuple);
            let right = value(inputs, right, tuple);
            apply(operation(*op), left, right)
        }
    }
}

// What an operator does.
fn operation(op: Operator) -> BinOp
    ensures { result ≡ oper_of op }
{
    match op {
        Operator::Mul => BinOp::Mul,
        Operator::Quot => BinOp::Quot,
        Operator::Rem => BinOp::Rem,
        Operator::Add => BinOp::Add,
        Operator::Sub => BinOp::Sub,
        Operator::Equal => BinOp::Eq,
        Operator::Different | Operator::NotEqual => BinOp::Ne,
        Operator::Less => BinOp::Lt,
        Operator::LessEqual => BinOp::Le,
        Operator::Greater => BinOp::Gt,
        Operator::GreaterEqual => BinOp::Ge,
        Operator::And => BinOp::And,
        Operator::Or => BinOp::Or,
    }
}
