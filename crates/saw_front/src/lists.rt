// The plan of a program whose body was read.
ghost use Rattle.std.specs.Prelude.{◌≡◌, ◌≤◌, ◌<◌, ◌^◌, IsTrue, IfOk, OnOk, [], ◌∷◌, ◌++◌, length, codes};
ghost use Rattle.river_base.specs.Name.{is_name};
ghost use Rattle.work_code.specs.Steps.{code_body, steps};
ghost use Rattle.river_kernels.specs.Kern.{code as code_of};
ghost use Rattle.river_kernels.specs.Fits.{rows};
ghost use Rattle.river_plan.specs.Forms.{plan_form, op_form, op_forms};
ghost use Rattle.river_plan.specs.Kinds.{table_width};
ghost use Rattle.saw_model.specs.Elaborate.{At, keys_in};
ghost use Rattle.saw_model.specs.Meaning.{tables_in, width};
ghost use Rattle.saw_model.specs.Plan.{queue_name, tally_name, queues_of, queue_decls, tally_op, plan_of};
ghost use Rattle.saw_text.specs.Tree.{unit_form, unit_forms};
ghost use Rattle.saw_front.specs.Plans.{IsListed, AreListed, widths, tally_ops, map_form, plan_lists};

use crate::reach::reach_units;
use crate::units::kind_of;
use kern_rows::CodeKernel;
use kern_tables::TableKind;
use river_base::{Bytes, FlatType, Name, NoMemory, Numbers, QueueType};
use river_kernels::Kernel;
use river_plan::{Decl, Decls, Names, Op, Ops, RawPlan, TableDecl, TableDecls};
use saw_text::Unit;
use std::alloc::Global;
use work_code::{Body, Code, Stmts};

// The table of a unit, behind those that are there, where it is one.
fn add_table(list: &mut TableDecls, unit: &Unit) -> Result<(), NoMemory>
    ensures { OnOk result (list.new ≡ list.old ++ tables_in (unit_form unit.now ∷ [])) }
{
    match unit {
        Unit::Statement(_) => Ok(()),
        Unit::Table(table) => {
            let Ok(keys) = u32::try_from(table.indexes.len()) else {
                return Err(NoMemory);
            };
            list.push(TableDecl {
                name: table.name,
                kind: kind_of(table.kind, keys),
            })
        }
    }
}

// The tables of a program.
fn tables(alloc: Global, units: &[Unit]) -> Result<TableDecls, NoMemory>
    ensures { IfOk result (λ ts. ts ≡ tables_in (unit_forms units.now)) }
{
    let mut list = TableDecls::new(alloc);
    for unit in units {
        add_table(&mut list, unit)?;
    }
    Ok(list)
}

// How many values a row of a table has.
fn table_width(kind: TableKind) -> u32
    requires { keys_in kind ≤ 8 }
    ensures { result ≡ table_width kind }
{
    match kind {
        TableKind::Sum { keys } | TableKind::Collection { keys } => keys + 1,
        TableKind::Maximum { keys, .. } => keys + 2,
    }
}

// A name's bytes, and these behind them.
fn text(alloc: Global, name: &Name, end: &[u8]) -> Result<Bytes, NoMemory>
    ensures text { IfOk result (λ text. text ≡ name.now ++ end.now) }
    ensures named { OnOk result (IsTrue (is_name name.now)) }
{
    let start = name.as_slice();
    let mut bytes = Bytes::from_slice(alloc, start)?;
    bytes.extend(end)?;
    Ok(bytes)
}

// The queue of a table.
fn queue(alloc: Global, name: &Name) -> Result<Name, NoMemory>
    requires { length name.now ≤ 40 }
    ensures { IfOk result (λ q. q ≡ queue_name name.now) }
{
    let text = text(alloc, name, b"@q")?;
    Ok(Name::of(text.as_slice()))
}

// The label of the operator that adds to a table.
fn label(alloc: Global, name: &Name) -> Result<Name, NoMemory>
    requires { length name.now ≤ 40 }
    ensures { IfOk result (λ l. l ≡ tally_name name.now) }
{
    let text = text(alloc, name, b"@tally")?;
    Ok(Name::of(text.as_slice()))
}

// The queues of tables.
fn queues(alloc: Global, tables: &TableDecls) -> Result<Decls, NoMemory>
    requires { AreListed tables.now }
    ensures { IfOk result (λ ds. ds ≡ queue_decls tables.now) }
{
    let mut list = Decls::new(alloc);
    for table in tables.as_slice() {
        let name = queue(alloc, &table.name)?;
        let kind = QueueType::Flat(FlatType::Rows(table_width(table.kind)));
        list.push(Decl { name, kind })?;
    }
    Ok(list)
}

// Their names.
fn queue_names(alloc: Global, tables: &TableDecls) -> Result<Names, NoMemory>
    requires { AreListed tables.now }
    ensures { IfOk result (λ ns. ns ≡ queues_of tables.now) }
{
    let mut list = Names::new(alloc);
    for table in tables.as_slice() {
        list.push(queue(alloc, &table.name)?)?;
    }
    Ok(list)
}

// Their widths.
fn widths(alloc: Global, tables: &TableDecls) -> Result<Numbers, NoMemory>
    requires { AreListed tables.now }
    ensures { IfOk result (λ ws. ws ≡ widths tables.now) }
{
    let mut list = Numbers::new(alloc);
    for table in tables.as_slice() {
        list.push(i64::from(table_width(table.kind)))?;
    }
    Ok(list)
}

// The operator that runs the body on each record, by its parts.
fn map_by(alloc: Global, label: Name, code: Code, outs: Numbers, reads: Names, writes: Names) -> Op
    ensures { op_form result
        ≡ record { label = label; kernel = code_of (record { body = code_body code; outs = outs; starts = [] }); reads = reads; writes = writes; vars = [] } }
{
    Op {
        label,
        kernel: Kernel::Code(CodeKernel {
            code,
            outs,
            starts: Numbers::new(alloc),
        }),
        reads,
        writes,
        vars: Names::new(alloc),
    }
}

// The operator that runs the body on each record.
#[tactic(auto, unfolding(river_base::specs::Name::is_word, river_base::specs::Name::is_letter, river_base::specs::Name::is_digit))]
fn map_op(alloc: Global, tables: &TableDecls, code: Code) -> Result<Op, NoMemory>
    requires { AreListed tables.now }
    ensures { IfOk result (λ op. op_form op ≡ map_form tables.now (code_body code)) }
{
    let outs = widths(alloc, tables)?;
    let reads = Names::one(alloc, Name::of(b"in"))?;
    let writes = queue_names(alloc, tables)?;
    let label = Name::of(b"map");
    Ok(map_by(alloc, label, code, outs, reads, writes))
}

// The operator that adds to a table.
fn tally(alloc: Global, table: &TableDecl) -> Result<Op, NoMemory>
    requires { IsListed table.now }
    ensures { IfOk result (λ op. op_form op ≡ tally_op table.now) }
{
    let label = label(alloc, &table.name)?;
    let reads = Names::one(alloc, queue(alloc, &table.name)?)?;
    let vars = Names::one(alloc, table.name)?;
    Ok(Op {
        label,
        kernel: Kernel::Tally,
        reads,
        writes: Names::new(alloc),
        vars,
    })
}

// Those that add to tables, behind what is there.
fn add_tallies(alloc: Global, ops: &mut Ops, tables: &TableDecls) -> Result<(), NoMemory>
    requires { AreListed tables.now }
    ensures { OnOk result (op_forms ops.new ≡ op_forms ops.old ++ tally_ops tables.now) }
{
    for table in tables.as_slice() {
        ops.push(tally(alloc, table)?)?;
    }
    Ok(())
}

// All operators.
fn operators(alloc: Global, tables: &TableDecls, code: Code) -> Result<Ops, NoMemory>
    requires { AreListed tables.now }
    ensures { IfOk result (λ ops. op_forms ops ≡ map_form tables.now (code_body code) ∷ tally_ops tables.now) }
{
    let mut ops = Ops::new(alloc);
    ops.push(map_op(alloc, tables, code)?)?;
    add_tallies(alloc, &mut ops, tables)?;
    Ok(ops)
}

// The input of so many fields.
#[tactic(auto, unfolding(river_base::specs::Name::is_word, river_base::specs::Name::is_letter, river_base::specs::Name::is_digit))]
fn inputs(alloc: Global, width: u32) -> Result<Decls, NoMemory>
    ensures { IfOk result (λ ds. ds ≡ record { name = codes "in"; kind = rows width } ∷ []) }
{
    let mut list = Decls::new(alloc);
    list.push(Decl {
        name: Name::of(b"in"),
        kind: QueueType::Flat(FlatType::Rows(width)),
    })?;
    Ok(list)
}

// The number of fields that a program reads, at least 1.
fn width(units: &[Unit]) -> u32
    requires { width (unit_forms units.now) < 2 ^ 32 }
    ensures { result ≡ width (unit_forms units.now) }
{
    let most = reach_units(units);
    if most == 0 { 1 } else { most as u32 }
}

/// The lists of the plan of a program whose body is this, with so many slots.
pub(crate) fn lists(
    alloc: Global,
    units: &[Unit],
    body: Stmts,
    slots: u32,
) -> Result<RawPlan, NoMemory>
    requires listed { AreListed (tables_in (unit_forms units.now)) }
    requires wide { width (unit_forms units.now) < 2 ^ 32 }
    ensures { (at : At) → at.slots ≡ slots → IfOk result (λ raw. plan_form raw ≡ plan_of (unit_forms units.now) (steps body, at)) }
{
    let width = width(units);
    let code = Code {
        inputs: width,
        slots,
        body: Body::of(alloc, body)?,
    };
    let tables = tables(alloc, units)?;
    let ops = operators(alloc, &tables, code)?;
    declared(alloc, width, tables, ops)
}

// The lists with these tables and operators.
fn declared(alloc: Global, width: u32, tables: TableDecls, ops: Ops) -> Result<RawPlan, NoMemory>
    requires { AreListed tables }
    ensures { IfOk result (λ raw. plan_form raw ≡ plan_lists width tables (op_forms ops)) }
{
    let inputs = inputs(alloc, width)?;
    let queues = queues(alloc, &tables)?;
    Ok(RawPlan {
        outputs: Decls::new(alloc),
        inputs,
        queues,
        tables,
        vars: Names::new(alloc),
        ops,
    })
}
