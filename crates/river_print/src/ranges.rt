// The ranges of a plan's numbers. That a number behind a reference lies in the range of its type, and that a name is one, is known
// where it is read: these functions read each of a plan once, change nothing and give nothing.
ghost use Rattle.std.specs.Prelude.{map};
ghost use Rattle.work_code.specs.Term.{term};
ghost use Rattle.work_code.specs.Steps.{step, steps, code_body};
ghost use Rattle.kern_rows.specs.Forms.{code_form, filter_form, optional_run, run_form};
ghost use Rattle.river_kernels.specs.Kern.{kern_of};
ghost use Rattle.river_plan.specs.Forms.{plan_form, op_form};
ghost use Rattle.river_print.specs.Ranged.{IsRanged, IsRangedTerm, IsRangedStep, IsRangedSteps, IsRangedBody, IsRangedCode};
ghost use Rattle.river_print.specs.Ranged.{IsRangedRun, IsRangedFirst, IsRangedFilter, IsRangedWindow, IsRangedKernel, IsRangedOp};
ghost use Rattle.river_print.specs.Writable.{Every, IsCount, IsWritableStart, IsNamed, IsWritableDecl, IsWritableType, IsWritableTable, IsWritableKind};
ghost use Rattle.river_kernels.specs.Fits.{width_of};

use kern_bags::Window;
use kern_rows::{CodeKernel, Filter, First};
use kern_tables::TableKind;
use river_base::{FlatType, Name, QueueType};
use river_kernels::Kernel;
use river_plan::{Decl, Op, RawPlan, TableDecl};
use work_code::{Code, Expr, Stmt, Stmts};

/// Reads the numbers and names of these lists.
pub(crate) fn read_plan(plan: &RawPlan)
    ensures { IsRanged (plan_form plan.now) }
{
    read_decls(plan.outputs.as_slice());
    read_decls(plan.inputs.as_slice());
    read_decls(plan.queues.as_slice());
    read_tables(plan.tables.as_slice());
    read_names(plan.vars.as_slice());
    read_ops(plan.ops.as_slice());
}

fn read_names(names: &[Name])
    ensures { Every IsNamed names.now }
{
    for name in names {
        read_name(name);
    }
}

fn read_name(name: &Name)
    ensures { IsNamed name.now }
{
    let _bytes = name.as_slice();
}

fn read_decls(decls: &[Decl])
    ensures { Every IsWritableDecl decls.now }
{
    for decl in decls {
        read_decl(decl);
    }
}

fn read_decl(decl: &Decl)
    ensures { IsWritableDecl decl.now }
{
    read_name(&decl.name);
    read_type(decl.kind);
}

fn read_type(kind: QueueType)
    ensures { IsWritableType kind }
{
    match kind {
        QueueType::Flat(flat) | QueueType::Pack(flat) => read_flat(flat),
    }
}

fn read_flat(flat: FlatType)
    ensures { IsCount (width_of flat) }
{
    match flat {
        FlatType::Rows(_width) | FlatType::Stream(_width) | FlatType::Relation(_width) => {}
    }
}

fn read_tables(tables: &[TableDecl])
    ensures { Every IsWritableTable tables.now }
{
    for table in tables {
        read_table(table);
    }
}

fn read_table(table: &TableDecl)
    ensures { IsWritableTable table.now }
{
    read_name(&table.name);
    read_kind(table.kind);
}

fn read_kind(kind: TableKind)
    ensures { IsWritableKind kind }
{
    match kind {
        TableKind::Sum { keys: _keys } | TableKind::Collection { keys: _keys } => {}
        TableKind::Maximum {
            best: _best,
            keys: _keys,
        } => {}
    }
}

fn read_ops(ops: &[Op])
    ensures { Every IsRangedOp (map op_form ops.now) }
{
    for op in ops {
        read_op(op);
    }
}

fn read_op(op: &Op)
    ensures { IsRangedOp (op_form op.now) }
{
    read_name(&op.label);
    read_kernel(&op.kernel);
    read_names(op.reads.as_slice());
    read_names(op.writes.as_slice());
    read_names(op.vars.as_slice());
}

fn read_kernel(kernel: &Kernel)
    ensures { IsRangedKernel (kern_of kernel.now) }
{
    match kernel {
        Kernel::Code(code) => read_code_kernel(code),
        Kernel::Filter(filter) => read_filter(filter),
        Kernel::Duplicate(ports) | Kernel::Unpack(ports) => read_count(*ports),
        Kernel::Deal(weights) | Kernel::Collect(weights) => read_values(weights.as_slice()),
        Kernel::Packed(inner) => read_kernel(inner),
        Kernel::Window(window) => read_window(*window),
        Kernel::Select(cond) => read_expr(cond.expr()),
        Kernel::Project(list) => read_exprs(list.exprs().as_slice()),
        Kernel::Cross | Kernel::Streamer(_) | Kernel::Tally => {}
        Kernel::Fused { first, second, at } => {
            read_count(*at);
            read_kernel(first);
            read_kernel(second);
        }
    }
}

fn read_code_kernel(kernel: &CodeKernel)
    ensures { IsRangedCode (code_form kernel.now) }
{
    read_code(&kernel.code);
    read_values(kernel.outs.as_slice());
    read_values(kernel.starts.as_slice());
}

fn read_filter(filter: &Filter)
    ensures { IsRangedFilter (filter_form filter.now) }
{
    read_count(filter.peek);
    read_count(filter.pop);
    read_count(filter.push);
    read_code(&filter.code);
    read_values(filter.starts.as_slice());
    read_first(&filter.first);
}

fn read_first(first: &Option<First>)
    ensures { IsRangedFirst (optional_run first.now) }
{
    match first {
        Some(run) => read_run(run),
        None => {}
    }
}

fn read_run(run: &First)
    ensures { IsRangedRun (run_form run.now) }
{
    read_count(run.peek);
    read_count(run.pop);
    read_count(run.push);
    read_code(&run.code);
}

fn read_window(window: Window)
    ensures { IsRangedWindow window }
{
    match window {
        Window::Now | Window::Unbounded => {}
        Window::Range(_most) => {}
        Window::Latest(_count) => {}
    }
}

fn read_code(code: &Code)
    ensures { IsRangedBody (code_body code.now) }
{
    read_count(code.inputs);
    read_count(code.slots);
    read_stmts(code.body.stmts());
}

#[cycle(read_stmt)]
fn read_stmts(body: &Stmts)
    ensures { IsRangedSteps (steps body.now) }
{
    for s in body.as_slice() {
        read_stmt(s);
    }
}

#[cycle(read_stmt)]
fn read_stmt(s: &Stmt)
    ensures { IsRangedStep (step s.now) }
{
    match s {
        Stmt::Set { slot, value } => {
            read_count(*slot);
            read_expr(value);
        }
        Stmt::Push { port, values } => {
            read_count(*port);
            read_exprs(values.as_slice());
        }
        Stmt::If { cond, yes, no } => {
            read_expr(cond);
            read_stmts(yes);
            read_stmts(no);
        }
    }
}

fn read_exprs(items: &[Expr])
    ensures { Every IsRangedTerm (map term items.now) }
{
    for item in items {
        read_expr(item);
    }
}

fn read_expr(e: &Expr)
    ensures { IsRangedTerm (term e.now) }
{
    match e {
        Expr::Const(value) => read_value(*value),
        Expr::Input(place) | Expr::Slot(place) => read_count(*place),
        Expr::Neg(inner) | Expr::Not(inner) => read_expr(inner),
        Expr::Bin { left, right, .. } => {
            read_expr(left);
            read_expr(right);
        }
    }
}

fn read_values(items: &[i64])
    ensures { Every IsWritableStart items.now }
{
    for item in items {
        read_value(*item);
    }
}

fn read_value(_value: i64)
    ensures { IsWritableStart _value }
{}

fn read_count(_count: u32)
    ensures { IsCount _count }
{}
