// The values of Sawzall's expressions, for the fields of a record and the values of its locals.
ghost use Rattle.std.specs.Prelude.{◌≡◌, pos, OnOk, slice_index_or};
ghost use Rattle.brooklet_model.specs.Machine.{at_name};
ghost use Rattle.saw_model.specs.Meaning.{eval as value_said, eval_or, listed};
ghost use Rattle.saw_text.specs.Tree.{expression, option_expression};
ghost use Rattle.saw_front.specs.Valued.{AreValues, AllValues};
ghost use Rattle.slow_sawzall.specs.Sawzall.{named_values};

use river_base::{Name, NoMemory, Row};
use saw_text::Expr;
use work_code::{apply, negate, truth_of};

// The field of a record at a place; one that is not there is 0.
fn field(row: &Row, place: u32) -> i64
    ensures { result ≡ slice_index_or row.now place (pos 0) }
{
    match row.values().get(place as usize) {
        Some(value) => *value,
        None => 0,
    }
}

// The value of a local; one that was not set is 0.
fn value_of(locals: &[(Name, i64)], name: &Name) -> i64
    ensures { result ≡ named_values locals.now name.now }
{
    for local in locals {
        if local.0 == *name {
            return local.1;
        }
    }
    0
}

/// Sets a local to a value.
pub(crate) fn set(locals: &mut Vec<(Name, i64)>, name: Name, value: i64) -> Result<(), NoMemory>
    ensures { OnOk result (named_values locals.new.items ≡ at_name name value (named_values locals.old.items)) }
{
    for i in 0..locals.len() {
        if locals[i].0 == name {
            locals[i] = (name, value);
            return Ok(());
        }
    }
    locals.push((name, value))?;
    Ok(())
}

/// The value of an expression.
pub(crate) fn value(e: &Expr, row: &Row, locals: &[(Name, i64)]) -> i64
    requires { AreValues (expression e.now) }
    ensures { result ≡ value_said (expression e.now) row.now (named_values locals.now) }
{
    match e {
        Expr::Number(number) => *number as i64,
        Expr::Name(name) => value_of(locals, name),
        Expr::Input(place) => field(row, *place),
        Expr::Neg(inner) => negate(value(inner, row, locals)),
        Expr::Not(inner) => truth_of(value(inner, row, locals) == 0),
        Expr::Bin { op, left, right } => {
            let a = value(left, row, locals);
            let b = value(right, row, locals);
            apply(*op, a, b)
        }
    }
}

/// The value of an expression, where there is one; otherwise 0.
pub(crate) fn first_value(e: &Option<Expr>, row: &Row, locals: &[(Name, i64)]) -> i64
    requires { AllValues (listed (option_expression e.now)) }
    ensures { result ≡ eval_or (pos 0) (option_expression e.now) row.now (named_values locals.now) }
{
    match e {
        None => 0,
        Some(e) => value(e, row, locals),
    }
}
