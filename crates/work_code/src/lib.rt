//! Work code: expressions and statements as data, and their runs.
#![tactic(auto)]

mod acts;
mod body;
mod calc;
mod code;
mod emitted;
mod evaluate;
mod expr;
mod formula;
mod run;

pub use body::Body;
pub use code::{Code, Stmt, Stmts};
pub use emitted::Emitted;
pub use evaluate::{apply, eval, negate, truth_of};
pub use expr::{BinOp, Expr, Exprs};
pub use formula::{Formula, Formulas};
pub use run::run_code;
