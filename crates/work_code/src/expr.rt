// Expressions of work code.
ghost use Rattle.std.specs.Prelude.{◌≡◌, ◌<◌, ◌^◌, [], ◌∷◌, ◌++◌, length, IfOk, OnOk, OnErr, MatchOption, slice_get, Some, IsTrue, ◌↔◌};
ghost use Rattle.std.specs.Slice.Iter.{iter_rest};
ghost use Rattle.std.specs.Iterator.Adapters.{IterYieldsInOrder};
ghost use Rattle.std.specs.Borrow.{sem};
ghost use Rattle.work_code.specs.Lent.{LendsExpr};
ghost use Rattle.work_code.specs.Term.{term, all_exprs, terms};

use river_base::NoMemory;
use std::alloc::Global;
use std::slice;

/// An operation on two values. Sums, differences and products wrap at 64 bits, `Quot` truncates towards zero, a
/// division by 0 gives 0, a test gives 1 or 0, and `And` and `Or` take every value but 0 as true.
#[derive(Clone, Copy)]
pub enum BinOp {
    Add,
    Sub,
    Mul,
    Quot,
    Rem,
    Eq,
    Ne,
    Lt,
    Le,
    Gt,
    Ge,
    And,
    Or,
}

/// An expression over the values of a row and over numbered slots.
#[derive(Drop)]
pub enum Expr {
    /// A value as written.
    Const(i64),
    /// The value at a place of the input, from 0.
    Input(u32),
    /// The value of a slot, from 0.
    Slot(u32),
    /// The value with its sign turned.
    Neg(Box<Expr>),
    /// 1 where the value is 0, and otherwise 0.
    Not(Box<Expr>),
    /// An operation on two values.
    Bin {
        op: BinOp,
        left: Box<Expr>,
        right: Box<Expr>,
    },
}

impl Expr {
    /// An expression with the same tree.
    #[cycle(copy)]
    pub fn copy(&self, alloc: Global) -> Result<Expr, NoMemory>
        ensures { IfOk result (λ copy. term copy ≡ term self.now) }
    {
        match self {
            Expr::Const(value) => Ok(Expr::Const(*value)),
            Expr::Input(place) => Ok(Expr::Input(*place)),
            Expr::Slot(slot) => Ok(Expr::Slot(*slot)),
            Expr::Neg(inner) => Ok(Expr::Neg(inner.boxed(alloc)?)),
            Expr::Not(inner) => Ok(Expr::Not(inner.boxed(alloc)?)),
            Expr::Bin { op, left, right } => Ok(Expr::Bin {
                op: *op,
                left: left.boxed(alloc)?,
                right: right.boxed(alloc)?,
            }),
        }
    }

    // A copy in a box.
    #[cycle(copy)]
    fn boxed(&self, alloc: Global) -> Result<Box<Expr>, NoMemory>
        ensures { IfOk result (λ copy. term copy.value ≡ term self.now) }
    {
        let copy = self.copy(alloc)?;
        Ok(Box::new(alloc, copy)?)
    }
}

/// A list of expressions.
#[derive(Drop)]
pub struct Exprs {
    items: Vec<Expr>,
}

impl Exprs {
    /// The empty list.
    pub fn new(alloc: Global) -> Exprs
        ensures { all_exprs result ≡ [] }
    {
        Exprs {
            items: Vec::new(alloc),
        }
    }

    /// Appends an expression; changes nothing where there is no memory.
    pub fn push(&mut self, x: Expr) -> Result<(), NoMemory>
        ensures ok { OnOk result (all_exprs self.new ≡ all_exprs self.old ++ x ∷ []) }
        ensures err { OnErr result (all_exprs self.new ≡ all_exprs self.old) }
    {
        self.items.push(x)?;
        Ok(())
    }

    /// How many expressions there are.
    pub fn len(&self) -> usize
        ensures { result ≡ length (all_exprs self.now) }
    {
        self.items.len()
    }

    /// Whether there is no expression.
    pub fn is_empty(&self) -> bool
        ensures { IsTrue result ↔ (all_exprs self.now ≡ []) }
    {
        self.items.is_empty()
    }

    /// The expression at a place, from 0.
    pub fn at(&self, i: usize) -> &Expr
        requires { i < length (all_exprs self.now) }
        ensures { slice_get (all_exprs self.now) i ≡ Some result.now }
    {
        &self.items[i]
    }

    /// The expression at a place, from 0, to be changed.
    pub fn at_mut(&mut self, i: usize) -> &mut Expr
        requires { i < length (all_exprs self.old) }
        ensures* writes_back { sem 𝓛 (LendsExpr self.entry i result) }
        ensures value { slice_get (all_exprs self.old) i ≡ Some result.now }
    {
        &mut self.items[i]
    }

    /// Takes the last expression out; None where there is none.
    pub fn pop(&mut self) -> Option<Expr>
        ensures { MatchOption result ((all_exprs self.old ≡ []) × (all_exprs self.new ≡ [])) (λ x. all_exprs self.old ≡ all_exprs self.new ++ x ∷ []) }
    {
        self.items.pop()
    }

    /// The expressions.
    pub fn as_slice(&self) -> &[Expr]
        ensures { result.now ≡ all_exprs self.now }
    {
        self.items.as_slice()
    }

    /// Goes over the expressions in order.
    pub fn iter(&self) -> slice::Iter<'_, Expr>
        ensures rest { iter_rest result ≡ all_exprs self.now }
        ensures bound { length (iter_rest result) < 2 ^ 64 }
        ensures runs { IterYieldsInOrder Expr }
    {
        self.items.iter()
    }

    /// A list of expressions with the same trees.
    #[tactic(auto, using(crate::proofs::Lists::copies))]
    pub fn copy(&self, alloc: Global) -> Result<Exprs, NoMemory>
        ensures { IfOk result (λ copy. terms copy ≡ terms self.now) }
    {
        let mut copies = Exprs::new(alloc);
        for x in self.as_slice() {
            copies.push(x.copy(alloc)?)?;
        }
        Ok(copies)
    }
}
