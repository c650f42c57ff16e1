// Prints bodies.
ghost use Rattle.std.specs.Prelude.{◌≡◌, ◌++◌, map, codes, OnOk, OnErr};
ghost use Rattle.std.specs.Fmt.{decimal};
ghost use Rattle.work_code.specs.Term.{term, terms};
ghost use Rattle.work_code.specs.Steps.{step, steps};
ghost use Rattle.work_code.specs.Printed.{text_of, items_text, more_items, step_text, body_text, more_text, else_text};

use crate::print::{write_between, write_expr};
use river_base::{Bytes, NoMemory};
use std::alloc::Global;
use work_code::{Code, Expr, Exprs, Stmt, Stmts};

/// Appends the text of a body, or nothing where there is no memory.
pub fn print_code(alloc: Global, c: &Code, to: &mut Bytes) -> Result<(), NoMemory>
    ensures ok { OnOk result (to.new ≡ to.old ++ body_text (steps c.now.body)) }
    ensures err { OnErr result (to.new ≡ to.old) }
{
    let mut text = Bytes::new(alloc);
    write_code(c, &mut text)?;
    to.extend(text.as_slice())
}

/// Appends the text of a body; where there is no memory, maybe a part of it.
pub(crate) fn write_code(c: &Code, to: &mut Bytes) -> Result<(), NoMemory>
    ensures { OnOk result (to.new ≡ to.old ++ body_text (steps c.now.body)) }
{
    write_body(c.body.stmts(), to)
}

// Appends the statements between braces.
#[cycle(write_step)]
#[tactic(auto, using(text_tokens::proofs::Joined::joins))]
fn write_body(body: &Stmts, to: &mut Bytes) -> Result<(), NoMemory>
    ensures { OnOk result (to.new ≡ to.old ++ body_text (steps body.now)) }
{
    to.extend(b"{")?;
    write_steps(body, to)?;
    to.extend(b" }")
}

// Appends the statements, each behind a space.
#[cycle(write_step)]
#[tactic(auto, using(text_tokens::proofs::Joined::joins))]
fn write_steps(body: &Stmts, to: &mut Bytes) -> Result<(), NoMemory>
    ensures { OnOk result (to.new ≡ to.old ++ more_text (steps body.now)) }
{
    for s in body.as_slice() {
        to.extend(b" ")?;
        write_step(s, to)?;
    }
    Ok(())
}

#[cycle(write_step)]
#[tactic(auto, using(text_tokens::proofs::Joined::joins))]
fn write_step(s: &Stmt, to: &mut Bytes) -> Result<(), NoMemory>
    ensures { OnOk result (to.new ≡ to.old ++ step_text (step s.now)) }
{
    match s {
        Stmt::Set { slot, value } => write_set(*slot, value, to),
        Stmt::Push { port, values } => write_push(*port, values, to),
        Stmt::If { cond, yes, no } => {
            write_between(b"if (", cond, b") ", to)?;
            write_body(yes, to)?;
            write_else(no, to)
        }
    }
}

// Appends the setting of a slot.
#[tactic(auto, using(text_tokens::proofs::Joined::joins))]
fn write_set(slot: u32, value: &Expr, to: &mut Bytes) -> Result<(), NoMemory>
    ensures { OnOk result (to.new ≡ to.old ++ (codes "slot[" ++ (decimal slot ++ (codes "] = " ++ (text_of (term value.now) ++ codes ";"))))) }
{
    to.extend(b"slot[")?;
    to.put_number(slot)?;
    write_between(b"] = ", value, b";", to)
}

// Appends the push of a row.
#[tactic(auto, using(text_tokens::proofs::Joined::joins))]
fn write_push(port: u32, values: &Exprs, to: &mut Bytes) -> Result<(), NoMemory>
    ensures { OnOk result (to.new ≡ to.old
        ++ (codes "push " ++ (decimal port ++ (codes " (" ++ (items_text (map text_of (terms values.now)) ++ codes ");"))))) }
{
    to.extend(b"push ")?;
    to.put_number(port)?;
    write_row(values, to)
}

// Appends the values of a row between brackets.
#[tactic(auto, using(text_tokens::proofs::Joined::joins))]
fn write_row(values: &Exprs, to: &mut Bytes) -> Result<(), NoMemory>
    ensures { OnOk result (to.new ≡ to.old ++ (codes " (" ++ (items_text (map text_of (terms values.now)) ++ codes ");"))) }
{
    to.extend(b" (")?;
    write_items(values, to)?;
    to.extend(b");")
}

// Appends an else, unless it is empty.
#[cycle(write_step)]
#[tactic(auto, using(text_tokens::proofs::Joined::joins))]
fn write_else(body: &Stmts, to: &mut Bytes) -> Result<(), NoMemory>
    ensures { OnOk result (to.new ≡ to.old ++ else_text (steps body.now)) }
{
    if body.is_empty() {
        return Ok(());
    }
    to.extend(b" else ")?;
    write_body(body, to)
}

/// Appends expressions with commas between them.
#[tactic(auto, using(text_tokens::proofs::Joined::joins))]
pub(crate) fn write_items(items: &Exprs, to: &mut Bytes) -> Result<(), NoMemory>
    ensures { OnOk result (to.new ≡ to.old ++ items_text (map text_of (terms items.now))) }
{
    let Some((first, rest)) = items.as_slice().split_first() else {
        return Ok(());
    };
    write_expr(first, to)?;
    write_more(rest, to)
}

// Appends expressions, each behind a comma and a space.
#[tactic(auto, using(text_tokens::proofs::Joined::joins))]
fn write_more(items: &[Expr], to: &mut Bytes) -> Result<(), NoMemory>
    ensures { OnOk result (to.new ≡ to.old ++ more_items (map text_of (map term items.now))) }
{
    for item in items {
        to.extend(b", ")?;
        write_expr(item, to)?;
    }
    Ok(())
}
