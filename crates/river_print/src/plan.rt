// Prints plans.
ghost use Rattle.std.specs.Prelude.{◌≡◌, ◌++◌, ◌↔◌, map, IfOk, OnOk};
ghost use Rattle.kern_tables.specs.declared.kind.TableKind.TheVariants as table_kind;
ghost use Rattle.river_plan.specs.Caps.{AreCaps, first_cap, own_of};
ghost use Rattle.river_plan.specs.Forms.{plan_form, op_form};
ghost use Rattle.river_print.specs.Laws.{StandsForAlone, stood};
ghost use Rattle.river_print.specs.Printable.{IsPrintable};
ghost use Rattle.river_print.specs.Printed.{flat_text, type_text, table_text, cap_text, decl_line, capped_line};
ghost use Rattle.river_print.specs.Printed.{queue_line, table_line, var_line, op_line, head_text, lines, queues_text, plan_text};

use crate::items::{counted, ports, titled, two_in_brackets, var};
use crate::kernel::print_between;
use crate::ranges::read_plan;
use kern_tables::TableKind;
use river_base::{Bytes, FlatType, Name, NoMemory, QueueType};
use river_plan::{Caps, CapsByName, Decl, Op, Plan, RawPlan, TableDecl};
use std::alloc::Global;

/// The River text of a valid plan, of version 2, one unit a line; an internal queue has the capacity that
/// the first entry with its name says. It is in the grammar and stands for the plan and these capacities
/// and for nothing else, exactly where `if` nests at most 16 deep and no window's range is below 0.
pub fn print_river(alloc: Global, plan: &Plan, caps: &Caps) -> Result<Bytes, NoMemory>
    requires { AreCaps caps.now }
    ensures text { IfOk result (λ text. text ≡ plan_text (first_cap caps.now) plan.now) }
    ensures read { IfOk result (λ text. StandsForAlone text (stood (first_cap caps.now) plan.now) ↔ IsPrintable plan.now) }
{
    read_plan(plan.raw());
    print_raw(alloc, plan.raw(), caps)
}

/// The River text of these lists with these capacities, one unit a line. Two plans with the same lists and
/// the same first capacity of each internal queue have the same text.
#[tactic(auto, using(crate::proofs::Joined::joins))]
pub fn print_raw(alloc: Global, plan: &RawPlan, caps: &Caps) -> Result<Bytes, NoMemory>
    ensures { IfOk result (λ text. text ≡ plan_text (first_cap caps.now) (plan_form plan.now)) }
{
    let own = CapsByName::new(alloc, caps)?;
    print_with(alloc, plan, &own)
}

// The same, with capacities that are found by name.
fn print_with(alloc: Global, plan: &RawPlan, own: &CapsByName) -> Result<Bytes, NoMemory>
    ensures { IfOk result (λ text. text ≡ plan_text (own_of own.now) (plan_form plan.now)) }
{
    let mut text = Bytes::new(alloc);
    plan_lines(plan, own, &mut text)?;
    Ok(text)
}

#[tactic(auto, using(crate::proofs::Joined::joins))]
fn plan_lines(plan: &RawPlan, own: &CapsByName, to: &mut Bytes) -> Result<(), NoMemory>
    ensures { OnOk result (to.new ≡ to.old ++ plan_text (own_of own.now) (plan_form plan.now)) }
{
    queue_lines(plan, own, to)?;
    table_lines(plan.tables.as_slice(), to)?;
    var_lines(plan.vars.as_slice(), to)?;
    op_lines(plan.ops.as_slice(), to)
}

// The header, and the queues.
#[tactic(auto, using(crate::proofs::Joined::joins))]
fn queue_lines(plan: &RawPlan, own: &CapsByName, to: &mut Bytes) -> Result<(), NoMemory>
    ensures { OnOk result (to.new ≡ to.old ++ queues_text (own_of own.now) (plan_form plan.now)) }
{
    to.extend(b"river 2;\n")?;
    decl_lines(b"output", plan.outputs.as_slice(), to)?;
    decl_lines(b"input", plan.inputs.as_slice(), to)?;
    inner_lines(plan.queues.as_slice(), own, to)
}

#[tactic(auto, using(crate::proofs::Joined::joins))]
fn inner_lines(decls: &[Decl], own: &CapsByName, to: &mut Bytes) -> Result<(), NoMemory>
    ensures { OnOk result (to.new ≡ to.old ++ lines (queue_line (own_of own.now)) decls.now) }
{
    for decl in decls {
        print_queue(decl, own.own(decl.name), to)?;
    }
    Ok(())
}

#[tactic(auto, using(crate::proofs::Joined::joins))]
fn print_queue(decl: &Decl, most: Option<u32>, to: &mut Bytes) -> Result<(), NoMemory>
    ensures { OnOk result (to.new ≡ to.old ++ capped_line decl.now most) }
{
    titled(b"queue ", &decl.name, to)?;
    print_type(decl.kind, to)?;
    print_cap(most, to)?;
    to.extend(b";\n")
}

// A capacity behind a space, if there is one.
fn print_cap(most: Option<u32>, to: &mut Bytes) -> Result<(), NoMemory>
    ensures { OnOk result (to.new ≡ to.old ++ cap_text most) }
{
    match most {
        Some(most) => counted(b" cap", most, to),
        None => Ok(()),
    }
}

#[tactic(auto, using(crate::proofs::Joined::joins))]
fn decl_lines(word: &[u8], decls: &[Decl], to: &mut Bytes) -> Result<(), NoMemory>
    ensures { OnOk result (to.new ≡ to.old ++ lines (decl_line word.now) decls.now) }
{
    for decl in decls {
        print_decl(word, decl, to)?;
    }
    Ok(())
}

#[tactic(auto, using(crate::proofs::Joined::joins))]
fn print_decl(word: &[u8], decl: &Decl, to: &mut Bytes) -> Result<(), NoMemory>
    ensures { OnOk result (to.new ≡ to.old ++ decl_line word.now decl.now) }
{
    to.extend(word)?;
    titled(b" ", &decl.name, to)?;
    print_type(decl.kind, to)?;
    to.extend(b";\n")
}

#[tactic(auto, using(crate::proofs::Joined::joins))]
fn print_type(kind: QueueType, to: &mut Bytes) -> Result<(), NoMemory>
    ensures { OnOk result (to.new ≡ to.old ++ type_text kind) }
{
    match kind {
        QueueType::Flat(flat) => print_flat(flat, to),
        QueueType::Pack(flat) => {
            to.extend(b"pack(")?;
            print_flat(flat, to)?;
            to.extend(b")")
        }
    }
}

fn print_flat(flat: FlatType, to: &mut Bytes) -> Result<(), NoMemory>
    ensures { OnOk result (to.new ≡ to.old ++ flat_text flat) }
{
    match flat {
        FlatType::Rows(width) => counted(b"rows", width, to),
        FlatType::Stream(width) => counted(b"stream", width, to),
        FlatType::Relation(width) => counted(b"relation", width, to),
    }
}

#[tactic(auto, using(crate::proofs::Joined::joins))]
fn table_lines(tables: &[TableDecl], to: &mut Bytes) -> Result<(), NoMemory>
    ensures { OnOk result (to.new ≡ to.old ++ lines table_line tables.now) }
{
    for table in tables {
        print_table(table, to)?;
    }
    Ok(())
}

#[tactic(auto, using(crate::proofs::Joined::joins))]
fn print_table(table: &TableDecl, to: &mut Bytes) -> Result<(), NoMemory>
    ensures { OnOk result (to.new ≡ to.old ++ table_line table.now) }
{
    to.extend(b"table ")?;
    var(&table.name, to)?;
    to.extend(b": ")?;
    print_kind(table.kind, to)?;
    to.extend(b";\n")
}

fn print_kind(kind: TableKind, to: &mut Bytes) -> Result<(), NoMemory>
    ensures { OnOk result (to.new ≡ to.old ++ table_text kind) }
{
    match kind {
        TableKind::Sum { keys } => counted(b"sum", keys, to),
        TableKind::Collection { keys } => counted(b"collection", keys, to),
        TableKind::Maximum { best, keys } => print_best(best, keys, to),
    }
}

#[tactic(auto, using(crate::proofs::Joined::joins))]
fn print_best(best: u32, keys: u32, to: &mut Bytes) -> Result<(), NoMemory>
    ensures { OnOk result (to.new ≡ to.old ++ table_text (table_kind.Maximum best keys)) }
{
    to.extend(b"maximum")?;
    two_in_brackets(best, keys, to)
}

#[tactic(auto, using(crate::proofs::Joined::joins))]
fn var_lines(vars: &[Name], to: &mut Bytes) -> Result<(), NoMemory>
    ensures { OnOk result (to.new ≡ to.old ++ lines var_line vars.now) }
{
    for name in vars {
        print_var(name, to)?;
    }
    Ok(())
}

#[tactic(auto, using(crate::proofs::Joined::joins))]
fn print_var(name: &Name, to: &mut Bytes) -> Result<(), NoMemory>
    ensures { OnOk result (to.new ≡ to.old ++ var_line name.now) }
{
    to.extend(b"var ")?;
    var(name, to)?;
    to.extend(b";\n")
}

#[tactic(auto, using(crate::proofs::Joined::joins))]
fn op_lines(ops: &[Op], to: &mut Bytes) -> Result<(), NoMemory>
    ensures { OnOk result (to.new ≡ to.old ++ lines op_line (map op_form ops.now)) }
{
    for op in ops {
        print_op(op, to)?;
    }
    Ok(())
}

#[tactic(auto, using(crate::proofs::Joined::joins))]
fn print_op(op: &Op, to: &mut Bytes) -> Result<(), NoMemory>
    ensures { OnOk result (to.new ≡ to.old ++ op_line (op_form op.now)) }
{
    print_head(op, to)?;
    print_between(b" { ", &op.kernel, b" }\n", to)
}

// The operator's name and ports.
#[tactic(auto, using(crate::proofs::Joined::joins))]
fn print_head(op: &Op, to: &mut Bytes) -> Result<(), NoMemory>
    ensures { OnOk result (to.new ≡ to.old ++ head_text (op_form op.now)) }
{
    titled(b"op ", &op.label, to)?;
    ports(op.writes.as_slice(), op.vars.as_slice(), to)?;
    to.extend(b" <- ")?;
    ports(op.reads.as_slice(), op.vars.as_slice(), to)
}
