// When bodies and expressions are well formed.
ghost use Rattle.std.specs.Prelude.{◌≡◌, ◌&&◌, nat_le};
ghost use Rattle.std.specs.List.{list_all};
ghost use Rattle.work_code.specs.Term.{term, terms, depth_of};
ghost use Rattle.work_code.specs.Steps.{step, steps};
ghost use Rattle.kern_rows.specs.Forms.{code_form, filter_form, run_form, optional_run};
ghost use Rattle.river_base.specs.Number.{count_of};
ghost use Rattle.river_kernels.specs.Formed.{left_of, has_rates, is_sound, is_term, has_port};
ghost use Rattle.river_kernels.specs.Formed.{is_step, is_steps, is_width, is_code, is_filter, is_usual, is_run, is_first, are_weights, is_window, pushes, pushes_once};
ghost use Rattle.river_kernels.specs.Fits.{are_widths};

use kern_bags::Window;
use kern_rows::{CodeKernel, Filter, First};
use river_base::count_of;
use work_code::{Expr, Exprs, Stmt, Stmts};

/// How deep an expression may be.
const MAX_DEPTH: u32 = 64;

// Whether each index of the input and each slot is below its bound, and no constant is below 0.
fn is_sound_expr(e: &Expr, inputs: u32, slots: u32) -> bool
    ensures { result ≡ is_sound inputs slots (term e.now) }
{
    match e {
        Expr::Const(value) => *value >= 0,
        Expr::Input(place) => *place < inputs,
        Expr::Slot(slot) => *slot < slots,
        Expr::Neg(inner) => is_sound_expr(inner, inputs, slots),
        Expr::Not(inner) => is_sound_expr(inner, inputs, slots),
        Expr::Bin { left, right, .. } => {
            is_sound_expr(left, inputs, slots) && is_sound_expr(right, inputs, slots)
        }
    }
}

// Whether the expression is at most so deep.
fn is_within(e: &Expr, most: u32) -> bool
    ensures { result ≡ nat_le (depth_of (term e.now)) most }
{
    if most == 0 {
        return false;
    }
    match e {
        Expr::Const(_) | Expr::Input(_) | Expr::Slot(_) => true,
        Expr::Neg(inner) | Expr::Not(inner) => is_within(inner, most - 1),
        Expr::Bin { left, right, .. } => is_within(left, most - 1) && is_within(right, most - 1),
    }
}

// Whether the expression is well formed for so many inputs and slots.
pub(crate) fn is_formed_expr(e: &Expr, inputs: u32, slots: u32) -> bool
    ensures { result ≡ is_term inputs slots (term e.now) }
{
    is_sound_expr(e, inputs, slots) && is_within(e, MAX_DEPTH)
}

pub(crate) fn are_formed_exprs(list: &Exprs, inputs: u32, slots: u32) -> bool
    ensures { result ≡ list_all (is_term inputs slots) (terms list.now) }
{
    for e in list.as_slice() {
        if !is_formed_expr(e, inputs, slots) {
            return false;
        }
    }
    true
}

// Whether the port is one of these, and its rows have n values.
fn is_port(outs: &[i64], port: u32, n: usize) -> bool
    ensures { result ≡ has_port outs.now port n }
{
    match outs.get(port as usize) {
        Some(width) => count_of(*width) == n as u64,
        None => false,
    }
}

// Whether the statement is well formed for so many inputs and slots, and for ports of these widths.
#[cycle(formed)]
fn is_formed_stmt(s: &Stmt, inputs: u32, slots: u32, outs: &[i64]) -> bool
    ensures { result ≡ is_step inputs slots outs.now (step s.now) }
{
    match s {
        Stmt::Set { slot, value } => *slot < slots && is_formed_expr(value, inputs, slots),
        Stmt::Push { port, values } => {
            is_port(outs, *port, values.len()) && are_formed_exprs(values, inputs, slots)
        }
        Stmt::If { cond, yes, no } => {
            is_formed_expr(cond, inputs, slots)
                && are_formed_stmts(yes, inputs, slots, outs)
                && are_formed_stmts(no, inputs, slots, outs)
        }
    }
}

/// Whether each statement is well formed for so many inputs and slots, and for ports of these widths.
#[cycle(formed)]
pub fn are_formed_stmts(all: &Stmts, inputs: u32, slots: u32, outs: &[i64]) -> bool
    ensures { result ≡ is_steps inputs slots outs.now (steps all.now) }
{
    for s in all.as_slice() {
        if !is_formed_stmt(s, inputs, slots, outs) {
            return false;
        }
    }
    true
}

// What is left of `room` after the pushes of a run; None where there are more, or not equally many in each run.
#[cycle(pushing)]
fn left_after_one(s: &Stmt, room: u32) -> Option<u32>
    ensures { result ≡ left_of (pushes_once (step s.now)) room }
{
    match s {
        Stmt::Set { .. } => Some(room),
        Stmt::Push { .. } => room.checked_sub(1),
        Stmt::If { yes, no, .. } => {
            let left = left_after(yes, room)?;
            if left_after(no, room)? == left {
                Some(left)
            } else {
                None
            }
        }
    }
}

#[cycle(pushing)]
fn left_after(all: &Stmts, room: u32) -> Option<u32>
    ensures { result ≡ left_of (pushes (steps all.now)) room }
{
    let mut left = room;
    for s in all.as_slice() {
        left = left_after_one(s, left)?;
    }
    Some(left)
}

/// Whether a row may have so many values, 1 to 16.
pub(crate) fn is_row_width(width: u64) -> bool
    ensures { result ≡ is_width width }
{
    1 <= width && width <= 16
}

// Whether each port's rows may have the width that is given.
pub(crate) fn are_row_widths(outs: &[i64]) -> bool
    ensures { result ≡ are_widths outs.now }
{
    outs.iter().all(|width| is_row_width(count_of(*width)))
}

// Whether there are weights, and each is at least 1.
pub(crate) fn are_formed_weights(weights: &[i64]) -> bool
    ensures { result ≡ are_weights weights.now }
{
    1 <= weights.len() && are_positive(weights)
}

fn are_positive(weights: &[i64]) -> bool
    ensures { result ≡ list_all (λ w. nat_le 1 (count_of w)) weights.now }
{
    weights.iter().all(|weight| count_of(*weight) >= 1)
}

// Whether a window of the last rows has at least 1.
pub(crate) fn is_formed_window(w: &Window) -> bool
    ensures { result ≡ is_window w.now }
{
    match w {
        Window::Now | Window::Range(_) | Window::Unbounded => true,
        Window::Latest(rows) => *rows >= 1,
    }
}

// Whether the body is well formed, and the kept slots are among its slots.
pub(crate) fn is_formed_code(k: &CodeKernel) -> bool
    ensures { result ≡ is_code (code_form k.now) }
{
    are_formed_stmts(
        k.code.body.stmts(),
        k.code.inputs,
        k.code.slots,
        k.outs.as_slice(),
    ) && k.starts.len() <= k.code.slots as usize
}

// Whether the filter is well formed, and its first run where it has one of its own.
pub(crate) fn is_formed_filter(f: &Filter) -> bool
    ensures { result ≡ is_filter (filter_form f.now) }
{
    is_formed_usual(f) && is_formed_first(&f.first, f.code.slots)
}

fn is_formed_first(first: &Option<First>, slots: u32) -> bool
    ensures { result ≡ is_first slots (optional_run first.now) }
{
    match first {
        None => true,
        Some(run) => is_formed_run(run, slots),
    }
}

// Whether the rates and the body of a first run are well formed, and it pushes as many values as it says.
fn is_formed_run(run: &First, slots: u32) -> bool
    ensures { result ≡ is_run slots (run_form run.now) }
{
    run.code.inputs == run.peek
        && run.code.slots == slots
        && run.pop <= run.peek
        && are_formed_stmts(run.code.body.stmts(), run.peek, slots, &[1])
        && left_after(run.code.body.stmts(), run.push) == Some(0)
}

// Whether the rates and the body are well formed, and each run pushes as many values as the filter says.
fn is_formed_usual(f: &Filter) -> bool
    ensures { result ≡ is_usual (filter_form f.now) }
{
    has_formed_rates(f)
        && are_formed_stmts(f.code.body.stmts(), f.peek, f.code.slots, &[1])
        && f.starts.len() <= f.code.slots as usize
        && left_after(f.code.body.stmts(), f.push) == Some(0)
}

fn has_formed_rates(f: &Filter) -> bool
    ensures { result ≡ has_rates (filter_form f.now) }
{
    f.code.inputs == f.peek && 1 <= f.pop && f.pop <= f.peek
}
