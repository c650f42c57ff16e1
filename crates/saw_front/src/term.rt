// Expressions, where names are known.
ghost use Rattle.std.specs.Prelude.{◌<◌};
ghost use Rattle.work_code.specs.Term.{term};
ghost use Rattle.saw_model.specs.Elaborate.{term_of};
ghost use Rattle.saw_text.specs.Tree.{expression};
ghost use Rattle.saw_front.specs.View.{scope_of, Judges};
ghost use Rattle.saw_front.specs.Valued.{AreValues};

use crate::names::{Known, Names};
use crate::refused::RefusedUnit;
use saw_model::Fault;
use saw_text::Expr as Written;
use std::alloc::Global;
use work_code::Expr;

// An expression on the fields of a record and the slots, in a box.
#[cycle(term)]
fn boxed(alloc: Global, names: &Names, written: &Written) -> Result<Box<Expr>, RefusedUnit>
    requires { AreValues (expression written.now) }
    ensures { Judges (λ boxed. term boxed.value) result (term_of (scope_of names.now.items.items) (expression written.now)) }
{
    Ok(Box::new(alloc, term(alloc, names, written)?)?)
}

/// An expression on the fields of a record and the slots.
#[cycle(term)]
pub(crate) fn term(alloc: Global, names: &Names, written: &Written) -> Result<Expr, RefusedUnit>
    requires { AreValues (expression written.now) }
    ensures { Judges term result (term_of (scope_of names.now.items.items) (expression written.now)) }
{
    match written {
        Written::Number(value) => Ok(Expr::Const(*value as i64)),
        Written::Name(name) => match names.find(name) {
            Some(Known::Slot(slot)) => Ok(Expr::Slot(slot)),
            Some(Known::Table { .. }) | None => Err(RefusedUnit::Fault(Fault::UnknownName)),
        },
        Written::Input(place) => {
            if *place <= 15 {
                Ok(Expr::Input(*place))
            } else {
                Err(RefusedUnit::Fault(Fault::Limit))
            }
        }
        Written::Neg(inner) => Ok(Expr::Neg(boxed(alloc, names, inner)?)),
        Written::Not(inner) => Ok(Expr::Not(boxed(alloc, names, inner)?)),
        Written::Bin { op, left, right } => {
            let left = boxed(alloc, names, left)?;
            let right = boxed(alloc, names, right)?;
            Ok(Expr::Bin {
                op: *op,
                left,
                right,
            })
        }
    }
}
