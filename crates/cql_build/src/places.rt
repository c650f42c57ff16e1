// Values by the places of their fields in the joined row of all items.
ghost use Rattle.std.specs.Prelude.{◌≡◌, ◌≤◌, ◌<◌, IfOk, IfSome, length};
ghost use Rattle.work_code.specs.Term.{term};
ghost use Rattle.cql_model.specs.Plan.{place_among, field_place, item_place, at_place, resolved, widths_of};
ghost use Rattle.cql_model.specs.KernelWords.{oper_of};
ghost use Rattle.cql_text.specs.Tree.{scalar};
ghost use Rattle.cql_build.specs.Views.{scope};

use crate::Item;
use cql_text::{Operator, Scalar};
use river_base::{Name, NoMemory};
use std::alloc::Global;
use work_code::{BinOp, Expr};

// The place of a field among the fields of one item, from 0.
fn place_in(fields: &[Name], field: Name) -> Option<usize>
    ensures is { result ≡ place_among field fields.now }
    ensures within { IfSome result (λ k. k < length fields.now) }
{
    for i in 0..fields.len() {
        if fields[i] == field {
            return Some(i);
        }
    }
    None
}

// The place of a field in the joined row: that of the first item which has it.
fn field_place(items: &[Item<'_>], field: Name) -> Option<usize>
    requires { widths_of (scope items.now) ≤ 16 }
    ensures is { result ≡ field_place field (scope items.now) }
    ensures within { IfSome result (λ k. k < 16) }
{
    let mut width = 0;
    for item in items {
        if let Some(place) = place_in(item.fields, field) {
            return Some(width + place);
        }
        width += item.fields.len();
    }
    None
}

// The place of a field of the item with this name.
fn item_place(items: &[Item<'_>], name: Name, field: Name) -> Option<usize>
    requires { widths_of (scope items.now) ≤ 16 }
    ensures is { result ≡ item_place name field (scope items.now) }
    ensures within { IfSome result (λ k. k < 16) }
{
    let mut width = 0;
    for item in items {
        if item.name == name {
            return match place_in(item.fields, field) {
                Some(place) => Some(width + place),
                None => None,
            };
        }
        width += item.fields.len();
    }
    None
}

// The value at a place; 0 where there is none.
fn at_place(place: Option<usize>) -> Expr
    requires { IfSome place (λ k. k < 16) }
    ensures { term result ≡ at_place place }
{
    match place {
        Some(place) => Expr::Input(place as u32),
        None => Expr::Const(0),
    }
}

// A value over the joined row of these items, in a box.
#[cycle(resolve)]
fn boxed(alloc: Global, items: &[Item<'_>], value: &Scalar) -> Result<Box<Expr>, NoMemory>
    requires { widths_of (scope items.now) ≤ 16 }
    ensures { IfOk result (λ boxed. term boxed.value ≡ resolved (scope items.now) (scalar value.now)) }
{
    Ok(Box::new(alloc, resolve(alloc, items, value)?)?)
}

/// A value over the joined row of these items.
#[cycle(resolve)]
pub(crate) fn resolve(alloc: Global, items: &[Item<'_>], value: &Scalar) -> Result<Expr, NoMemory>
    requires { widths_of (scope items.now) ≤ 16 }
    ensures { IfOk result (λ e. term e ≡ resolved (scope items.now) (scalar value.now)) }
{
    match value {
        Scalar::Number(number) => Ok(Expr::Const(number.value as i64)),
        Scalar::Field(field) => Ok(at_place(field_place(items, *field))),
        Scalar::ItemField(item, field) => Ok(at_place(item_place(items, *item, *field))),
        Scalar::Neg(inner) => Ok(Expr::Neg(boxed(alloc, items, inner)?)),
        Scalar::Not(inner) => Ok(Expr::Not(boxed(alloc, items, inner)?)),
        Scalar::Bin { op, left, right } => {
            let left = boxed(alloc, items, left)?;
            let right = boxed(alloc, items, right)?;
            Ok(Expr::Bin {
                op: oper_of(*op),
                left,
                right,
            })
        }
    }
}

// The operation of an operator.
fn oper_of(op: Operator) -> BinOp
    ensures { result ≡ oper_of op }
{
    match op {
        Operator::Mul => BinOp::Mul,
        Operator::Quot => BinOp::Quot,
        Operator::Rem => BinOp::Rem,
        Operator::Add => BinOp::Add,
        Operator::Sub => BinOp::Sub,
        Operator::Equal => BinOp::Eq,
        Operator::Different | Operator::NotEqual => BinOp::Ne,
        Operator::Less => BinOp::Lt,
        Operator::LessEqual => BinOp::Le,
        Operator::Greater => BinOp::Gt,
        Operator::GreaterEqual => BinOp::Ge,
        Operator::And => BinOp::And,
        Operator::Or => BinOp::Or,
    }
}
