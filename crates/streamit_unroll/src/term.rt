// Expressions of a filter, where names are known.
ghost use Rattle.std.specs.Prelude.{◌≡◌, ◌<◌, ◌+◌, OnOk};
ghost use Rattle.streamit_text.specs.Tree.{Bin, expression};
ghost use Rattle.work_code.specs.Term.{term};
ghost use Rattle.streamit_model.specs.Meaning.{pops};
ghost use Rattle.streamit_model.specs.Elaborate.{find, constant, constant_of, named_term, term_of, peeked};
ghost use Rattle.streamit_unroll.specs.View.{scope_of, Judges};
ghost use Rattle.streamit_unroll.specs.Numbers.{AreValues, value_itself};

use crate::{Known, Names, RefusedUnit};
use river_base::{MOST_ITEMS, Name};
use std::alloc::Global;
use streamit_model::Fault;
use streamit_text::Expr as Written;
use work_code::{BinOp, Expr, apply, negate, truth_of};

// The value of a constant expression.
#[cycle(constant)]
pub(crate) fn constant(names: &Names, e: &Written) -> Result<i64, RefusedUnit>
    requires { AreValues (expression e.now) }
    ensures { Judges value_itself result (constant (scope_of names.now.items.items) (expression e.now)) }
{
    match e {
        Written::Number(value) => Ok(*value as i64),
        Written::Name(name) => known_constant(names, *name),
        Written::Peek(_) | Written::Pop => Err(RefusedUnit::Fault(Fault::NotConstant)),
        Written::Neg(inner) => {
            let inner = constant(names, inner)?;
            Ok(negate(inner))
        }
        Written::Not(inner) => {
            let inner = constant(names, inner)?;
            Ok(truth_of(inner == 0))
        }
        Written::Bin { op, left, right } => constants(names, *op, left, right),
    }
}

// The value of a name, which is the variable of a loop.
fn known_constant(names: &Names, name: Name) -> Result<i64, RefusedUnit>
    ensures { Judges value_itself result (constant_of (find (scope_of names.now.items.items) name)) }
{
    match names.find(name) {
        None => Err(RefusedUnit::Fault(Fault::UnknownName)),
        Some(Known::Var(_)) => Err(RefusedUnit::Fault(Fault::NotConstant)),
        Some(Known::Turn(v)) => Ok(i64::from(v)),
    }
}

// The value of an operation on two constant expressions.
#[cycle(constant)]
fn constants(names: &Names, op: BinOp, left: &Written, right: &Written) -> Result<i64, RefusedUnit>
    requires left { AreValues (expression left.now) }
    requires right { AreValues (expression right.now) }
    ensures { Judges value_itself result (constant (scope_of names.now.items.items) (Bin op (expression left.now) (expression right.now))) }
{
    let left = constant(names, left)?;
    let right = constant(names, right)?;
    Ok(apply(op, left, right))
}

// An expression on the items and the slots; the pops that stand in it are counted.
#[cycle(term)]
pub(crate) fn term(
    alloc: Global,
    names: &Names,
    peek: u32,
    e: &Written,
    popped: &mut u32,
) -> Result<Expr, RefusedUnit>
    requires { AreValues (expression e.now) }
    ensures judged { Judges term result (term_of peek (scope_of names.now.items.items) (expression e.now) popped.old) }
    ensures popped { OnOk result (popped.new ≡ popped.old + pops (expression e.now)) }
{
    match e {
        Written::Number(value) => Ok(Expr::Const(*value as i64)),
        Written::Name(name) => known_term(names, *name),
        Written::Peek(inner) => {
            let index = constant(names, inner)?;
            peeked(peek, *popped, index)
        }
        Written::Pop => {
            let place = *popped;
            if place > MOST_ITEMS {
                return Err(RefusedUnit::Fault(Fault::Limit));
            }
            *popped = place + 1;
            Ok(Expr::Input(place))
        }
        Written::Neg(inner) => {
            let inner = term(alloc, names, peek, inner, popped)?;
            Ok(Expr::Neg(Box::new(alloc, inner)?))
        }
        Written::Not(inner) => {
            let inner = term(alloc, names, peek, inner, popped)?;
            Ok(Expr::Not(Box::new(alloc, inner)?))
        }
        Written::Bin { op, left, right } => { terms(alloc, names, peek, *op, left, right, popped) },
    }
}

// What a name stands for: its slot, or the value of the variable of a loop.
fn known_term(names: &Names, name: Name) -> Result<Expr, RefusedUnit>
    ensures { Judges term result (named_term (find (scope_of names.now.items.items) name)) }
{
    match names.find(name) {
        None => Err(RefusedUnit::Fault(Fault::UnknownName)),
        Some(Known::Var(slot)) => Ok(Expr::Slot(slot)),
        Some(Known::Turn(v)) => Ok(Expr::Const(i64::from(v))),
    }
}

// An operation on two expressions, from left to right.
#[cycle(term)]
fn terms(
    alloc: Global,
    names: &Names,
    peek: u32,
    op: BinOp,
    left: &Written,
    right: &Written,
    popped: &mut u32,
) -> Result<Expr, RefusedUnit>
    requires left { AreValues (expression left.now) }
    requires right { AreValues (expression right.now) }
    ensures judged { Judges term result (term_of peek (scope_of names.now.items.items) (Bin op (expression left.now) (expression right.now)) popped.old) }
    ensures popped { OnOk result (popped.new ≡ popped.old + pops (Bin op (expression left.now) (expression right.now))) }
{
    let left = Box::new(alloc, term(alloc, names, peek, left, popped)?)?;
    let right = Box::new(alloc, term(alloc, names, peek, right, popped)?)?;
    Ok(Expr::Bin { op, left, right })
}

// The item at an index, behind those that were popped.
fn peeked(peek: u32, popped: u32, index: i64) -> Result<Expr, RefusedUnit>
    ensures { Judges term result (peeked peek popped index) }
{
    if index < 0 {
        return Err(RefusedUnit::Fault(Fault::PeekRange { index, peek }));
    }
    let place = u64::from(popped) + index as u64;
    if place < u64::from(peek) {
        Ok(Expr::Input(place as u32))
    } else {
        Err(RefusedUnit::Fault(Fault::PeekRange { index, peek }))
    }
}
