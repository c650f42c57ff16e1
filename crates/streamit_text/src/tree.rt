// Filters as they are written.

use river_base::Name;
use work_code::BinOp;

/// A filter as it is written: its fields, `init`, `prework` for its first firing, and `work`.
#[derive(Drop)]
pub struct FilterTree {
    pub fields: Vec<Name>,
    pub init: Option<Block>,
    pub prework: Option<WorkTree>,
    pub work: WorkTree,
}

/// `work` or `prework` as it is written: its rates and its block.
#[derive(Drop)]
pub struct WorkTree {
    pub rates: Rates,
    pub block: Block,
}

/// The rates that are written, each of them once at most.
#[derive(Clone, Copy)]
pub struct Rates {
    pub push: Option<u32>,
    pub pop: Option<u32>,
    pub peek: Option<u32>,
}

/// A statement as it is written.
#[derive(Drop)]
#[cycle(written)]
pub enum Statement {
    /// `int NAME = e;`
    Declare {
        name: Name,
        value: Option<Expr>,
    },
    /// `NAME = e;`
    Assign {
        name: Name,
        value: Expr,
    },
    /// `push(e);`
    Push(Expr),
    /// `pop();`
    Pop,
    /// `if (e) { .. } else { .. }`
    If {
        cond: Expr,
        yes: Block,
        no: Option<Block>,
    },
    /// `for (int NAME = e; NAME < e; NAME++) { .. }`, or with `<=`.
    For {
        name: Name,
        low: Expr,
        until: Until,
        high: Expr,
        body: Block,
    },
}

/// How a loop's variable is held against its upper bound.
#[derive(Clone, Copy)]
pub enum Until {
    /// `<`: the upper bound is no turn.
    Below,
    /// `<=`: the upper bound is a turn too.
    UpTo,
}

/// A list of statements.
#[derive(Drop)]
#[cycle(written)]
pub struct Block {
    pub items: Vec<Statement>,
}

/// An expression as it is written.
#[derive(Drop)]
pub enum Expr {
    /// `e || e`, or with another operator.
    Bin {
        op: BinOp,
        left: Box<Expr>,
        right: Box<Expr>,
    },
    /// `-e`
    Neg(Box<Expr>),
    /// `!e`
    Not(Box<Expr>),
    /// A number.
    Number(u64),
    /// A field, a local or the variable of a loop.
    Name(Name),
    /// `peek(e)`
    Peek(Box<Expr>),
    /// `pop()`
    Pop,
}
