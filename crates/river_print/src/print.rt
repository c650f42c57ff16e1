// Prints expressions and bodies.
ghost use Rattle.std.specs.Prelude.{◌≡◌, ◌++◌, codes, OnOk, OnErr};
ghost use Rattle.std.specs.Fmt.{decimal};
ghost use Rattle.work_code.specs.Term.{term};
ghost use Rattle.work_code.specs.Printed.{text_of, sign_text};

use river_base::{Bytes, NoMemory};
use std::alloc::Global;
use work_code::{BinOp, Expr};

/// Appends the text of an expression, or nothing where there is no memory.
pub fn print_expr(alloc: Global, e: &Expr, to: &mut Bytes) -> Result<(), NoMemory>
    ensures ok { OnOk result (to.new ≡ to.old ++ text_of (term e.now)) }
    ensures err { OnErr result (to.new ≡ to.old) }
{
    let mut text = Bytes::new(alloc);
    write_expr(e, &mut text)?;
    to.extend(text.as_slice())
}

/// Appends the text of an expression; where there is no memory, maybe a part of it.
#[cycle(write_expr)]
#[tactic(auto, using(text_tokens::proofs::Joined::joins))]
pub(crate) fn write_expr(e: &Expr, to: &mut Bytes) -> Result<(), NoMemory>
    ensures { OnOk result (to.new ≡ to.old ++ text_of (term e.now)) }
{
    match e {
        Expr::Const(value) => to.put_number(*value),
        Expr::Input(place) => write_place(b"input[", *place, to),
        Expr::Slot(slot) => write_place(b"slot[", *slot, to),
        Expr::Neg(inner) => write_between(b"(-", inner, b")", to),
        Expr::Not(inner) => write_between(b"(!", inner, b")", to),
        Expr::Bin { op, left, right } => {
            write_between(b"(", left, b" ", to)?;
            to.extend(sign(*op))?;
            write_between(b" ", right, b")", to)
        }
    }
}

// Appends the text of an expression between two texts.
#[cycle(write_expr)]
#[tactic(auto, using(text_tokens::proofs::Joined::joins))]
pub(crate) fn write_between(
    before: &[u8],
    e: &Expr,
    behind: &[u8],
    to: &mut Bytes,
) -> Result<(), NoMemory>
    ensures { OnOk result (to.new ≡ to.old ++ (before.now ++ (text_of (term e.now) ++ behind.now))) }
{
    to.extend(before)?;
    write_expr(e, to)?;
    to.extend(behind)
}

// Appends a word and a place behind it.
#[tactic(auto, using(text_tokens::proofs::Joined::joins))]
fn write_place(word: &[u8], place: u32, to: &mut Bytes) -> Result<(), NoMemory>
    ensures { OnOk result (to.new ≡ to.old ++ (word.now ++ (decimal place ++ codes "]"))) }
{
    to.extend(word)?;
    to.put_number(place)?;
    to.extend(b"]")
}

fn sign(op: BinOp) -> &'static [u8]
    ensures { result.now ≡ sign_text op }
{
    match op {
        BinOp::Add => b"+",
        BinOp::Sub => b"-",
        BinOp::Mul => b"*",
        BinOp::Quot => b"/",
        BinOp::Rem => b"%",
        BinOp::Eq => b"==",
        BinOp::Ne => b"!=",
        BinOp::Lt => b"<",
        BinOp::Le => b"<=",
        BinOp::Gt => b">",
        BinOp::Ge => b">=",
        BinOp::And => b"&&",
        BinOp::Or => b"||",
    }
}
