// Blocks as they are unrolled: of a run of `pop();` the number is kept, so that each turn of a loop counts it at once.
ghost use Rattle.std.specs.Prelude.{◌≡◌, ◌∷◌, [], ◌++◌, map, IfOk, OnOk};
ghost use Rattle.streamit_text.specs.Tree.{Discard, If, expression, statement, block, optional_block};
ghost use Rattle.streamit_unroll.specs.Lean.{lean, lean_block, lean_optional, told};

use crate::simple::next;
use river_base::{Name, NoMemory};
use std::alloc::Global;
use streamit_text::{Block, Expr, Statement, Until};

/// A statement, where a run of `pop();` is one.
#[derive(Drop)]
#[cycle(lean)]
pub(crate) enum Lean<'t> {
    /// `int NAME = e;`
    Declare {
        name: Name,
        value: &'t Option<Expr>,
    },
    /// `NAME = e;`
    Assign {
        name: Name,
        value: &'t Expr,
    },
    /// `push(e);`
    Push(&'t Expr),
    /// So many `pop();`, one after another.
    Pops(u32),
    /// `if (e) { .. } else { .. }`
    If {
        cond: &'t Expr,
        yes: LeanBlock<'t>,
        no: Option<LeanBlock<'t>>,
    },
    /// `for (int NAME = e; NAME < e; NAME++) { .. }`, or with `<=`.
    For {
        name: Name,
        low: &'t Expr,
        until: Until,
        high: &'t Expr,
        body: LeanBlock<'t>,
    },
}

/// A list of such statements.
#[derive(Drop)]
#[cycle(lean)]
pub(crate) struct LeanBlock<'t> {
    pub items: Vec<Lean<'t>>,
}

/// Statements that are put together, and how many `pop();` stand behind them so far.
#[derive(Drop)]
pub(crate) struct Building<'t> {
    pub items: Vec<Lean<'t>>,
    pub pops: u32,
}

/// A block, whose runs of `pop();` are counted.
#[cycle(built)]
pub(crate) fn lean_block<'t>(alloc: Global, b: &'t Block) -> Result<LeanBlock<'t>, NoMemory>
    ensures { IfOk result (λ l. lean_block l ≡ block b.now) }
{
    let mut out = Building {
        items: Vec::new(alloc),
        pops: 0,
    };
    add_block(alloc, b, &mut out)?;
    flush(&mut out)?;
    Ok(LeanBlock { items: out.items })
}

// A block that may be left out, likewise.
#[cycle(built)]
fn lean_optional<'t>(alloc: Global, b: &'t Option<Block>) -> Result<Option<LeanBlock<'t>>, NoMemory>
    ensures { IfOk result (λ l. lean_optional l ≡ optional_block b.now) }
{
    match b {
        None => Ok(None),
        Some(block) => Ok(Some(lean_block(alloc, block)?)),
    }
}

// The statements of a block, behind those that are there.
#[cycle(built)]
fn add_block<'t>(alloc: Global, b: &'t Block, out: &mut Building<'t>) -> Result<(), NoMemory>
    ensures { OnOk result (told out.new ≡ told out.old ++ map statement b.now.items.items) }
{
    for s in b.items.as_slice() {
        add(alloc, s, out)?;
    }
    Ok(())
}

// A statement, behind those that are there.
#[cycle(built)]
fn add<'t>(alloc: Global, s: &'t Statement, out: &mut Building<'t>) -> Result<(), NoMemory>
    ensures { OnOk result (told out.new ≡ told out.old ++ statement s.now ∷ []) }
{
    match s {
        Statement::Pop => one_pop(out),
        Statement::Push(value) => add_lean(out, Lean::Push(value)),
        Statement::Declare { name, value } => add_lean(out, Lean::Declare { name: *name, value }),
        Statement::Assign { name, value } => add_lean(out, Lean::Assign { name: *name, value }),
        Statement::If { cond, yes, no } => {
            let step = branch(alloc, cond, yes, no)?;
            add_lean(out, step)
        }
        Statement::For {
            name,
            low,
            until,
            high,
            body,
        } => {
            let body = lean_block(alloc, body)?;
            add_lean(
                out,
                Lean::For {
                    name: *name,
                    low,
                    until: *until,
                    high,
                    body,
                },
            )
        }
    }
}

// An `if`.
#[cycle(built)]
fn branch<'t>(
    alloc: Global,
    cond: &'t Expr,
    yes: &'t Block,
    no: &'t Option<Block>,
) -> Result<Lean<'t>, NoMemory>
    ensures { IfOk result (λ l. lean l ≡ If (expression cond.now) (block yes.now) (optional_block no.now) ∷ []) }
{
    let yes = lean_block(alloc, yes)?;
    let no = lean_optional(alloc, no)?;
    Ok(Lean::If { cond, yes, no })
}

// A statement, behind those that are there.
fn add_lean<'t>(out: &mut Building<'t>, step: Lean<'t>) -> Result<(), NoMemory>
    ensures { OnOk result (told out.new ≡ told out.old ++ lean step.entry) }
{
    flush(out)?;
    out.items.push(step)?;
    Ok(())
}

// Puts the `pop();` behind the statements into one.
fn flush(out: &mut Building<'_>) -> Result<(), NoMemory>
    ensures told { OnOk result (told out.new ≡ told out.old) }
    ensures none { OnOk result (out.new.pops ≡ 0) }
{
    if out.pops > 0 {
        out.items.push(Lean::Pops(out.pops))?;
        out.pops = 0;
    }
    Ok(())
}

// One `pop();` more.
fn one_pop(out: &mut Building<'_>) -> Result<(), NoMemory>
    ensures { OnOk result (told out.new ≡ told out.old ++ Discard ∷ []) }
{
    out.pops = next(out.pops)?;
    Ok(())
}
