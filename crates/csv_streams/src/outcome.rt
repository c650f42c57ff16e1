// The printed text of what a plan gave.
ghost use Rattle.std.specs.Prelude.{◌≡◌, ◌++◌, ◌∷◌, [], true, length, map, Some, IfOk, OnOk};
ghost use Rattle.river_base.specs.Held.{IsAscending};
ghost use Rattle.river_base.specs.Row.{in_order};
ghost use Rattle.kern_tables.specs.Kept.{rows_of};
ghost use Rattle.river_plan.specs.Forms.{decl_names, table_names, labels, op_forms};
ghost use Rattle.csv_streams.specs.Outcome as text;

use brooklet_step::Outcome;
use kern_rows::{EvenRows, ItemLine};
use kern_tables::Table;
use river_base::{Batch, Bytes, Duplicate, Flat, Item, Name, NoMemory, Row, Rows};
use river_plan::{Decl, Op, Plan, TableDecl};
use std::alloc::Global;
use std::collections::VecDeque;

/// The text of what a plan gave: for each output in order the line `# NAME` and a line for each row, in which the values are
/// joined by commas; then the same for each table in order, whose NAME is without its `$`; and then, if `counts` asks for them,
/// the line `## firings` and a line `LABEL,COUNT` for each operator in order. A batch prints its rows in ascending order, each
/// behind its instant. A table prints its rows in ascending order, a maximum by key, and the rows of one key by rank. `outcome`
/// has the items of each output, each table and, where `counts` is true, a number for each operator.
pub fn print_outcome(
    alloc: Global,
    plan: &Plan,
    outcome: &Outcome,
    counts: bool,
) -> Result<Bytes, NoMemory>
    requires outs { length outcome.now.outs ≡ length plan.now.outputs }
    requires tables { length outcome.now.tables ≡ length plan.now.tables }
    requires counts { counts ≡ true → length outcome.now.counts ≡ length plan.now.ops }
    ensures { IfOk result (λ all. all ≡ text.printed_outcome plan.now outcome.now.outs
        (map rows_of outcome.now.tables) (text.asked_counts counts outcome.now.counts)) }
{
    let mut all = Bytes::new(alloc);
    print_all(alloc, plan, outcome, counts, &mut all)?;
    Ok(all)
}

// The outputs, the tables and, where they are asked for, the counts.
#[tactic(auto, using(crate::proofs::Texts::joins))]
fn print_all(
    alloc: Global,
    plan: &Plan,
    outcome: &Outcome,
    counts: bool,
    to: &mut Bytes,
) -> Result<(), NoMemory>
    requires outs { length outcome.now.outs ≡ length plan.now.outputs }
    requires tables { length outcome.now.tables ≡ length plan.now.tables }
    requires counts { counts ≡ true → length outcome.now.counts ≡ length plan.now.ops }
    ensures { OnOk result (to.new ≡ to.old ++ text.printed_outcome plan.now outcome.now.outs
        (map rows_of outcome.now.tables) (text.asked_counts counts outcome.now.counts)) }
{
    let raw = plan.raw();
    print_outputs(alloc, raw.outputs.as_slice(), outcome.outs.as_slice(), to)?;
    print_tables(alloc, raw.tables.as_slice(), outcome.tables.as_slice(), to)?;
    if counts {
        return print_firings(raw.ops.as_slice(), outcome.counts.as_slice(), to);
    }
    Ok(())
}

/// Appends the line `# NAME` for each output in order, and a line for each row of its items.
#[tactic(auto, using(crate::proofs::Texts::joins))]
pub fn print_outputs(
    alloc: Global,
    decls: &[Decl],
    outs: &[ItemLine],
    to: &mut Bytes,
) -> Result<(), NoMemory>
    requires { length outs.now ≡ length decls.now }
    ensures { OnOk result (to.new ≡ to.old ++ text.outputs_text (decl_names decls.now) outs.now) }
{
    for place in 0..decls.len() {
        print_output(alloc, &decls[place].name, &outs[place], to)?;
    }
    Ok(())
}

#[tactic(auto, using(crate::proofs::Texts::joins))]
fn print_output(
    alloc: Global,
    name: &Name,
    items: &ItemLine,
    to: &mut Bytes,
) -> Result<(), NoMemory>
    ensures { OnOk result (to.new ≡ to.old ++ text.output_text name.now items.now) }
{
    print_head(name, to)?;
    print_items(alloc, items, to)
}

/// Appends the line with a name.
#[tactic(auto, using(crate::proofs::Texts::joins))]
pub fn print_head(name: &Name, to: &mut Bytes) -> Result<(), NoMemory>
    ensures { OnOk result (to.new ≡ to.old ++ text.under_name name.now []) }
{
    to.extend(b"# ")?;
    to.extend(name.as_slice())?;
    to.push(b'\n')
}

#[tactic(auto, using(crate::proofs::Texts::joins))]
fn print_tables(
    alloc: Global,
    decls: &[TableDecl],
    tables: &[Table],
    to: &mut Bytes,
) -> Result<(), NoMemory>
    requires { length tables.now ≡ length decls.now }
    ensures { OnOk result (to.new ≡ to.old ++ text.tables_text (table_names decls.now) (map rows_of tables.now)) }
{
    for place in 0..decls.len() {
        print_table(alloc, &decls[place].name, &tables[place], to)?;
    }
    Ok(())
}

#[tactic(auto, using(crate::proofs::Texts::joins))]
fn print_table(alloc: Global, name: &Name, table: &Table, to: &mut Bytes) -> Result<(), NoMemory>
    ensures { OnOk result (to.new ≡ to.old ++ text.table_rows_text name.now (rows_of table.now)) }
{
    let rows = table.rows(alloc)?;
    print_head(name, to)?;
    print_rows(&rows, to)
}

#[tactic(auto, using(crate::proofs::Texts::joins))]
fn print_rows(rows: &Rows, to: &mut Bytes) -> Result<(), NoMemory>
    ensures { OnOk result (to.new ≡ to.old ++ text.texts_of text.row_line rows.now) }
{
    for row in rows.as_slice() {
        print_values(row.values(), to)?;
    }
    Ok(())
}

fn print_items(alloc: Global, items: &ItemLine, to: &mut Bytes) -> Result<(), NoMemory>
    ensures { OnOk result (to.new ≡ to.old ++ text.texts_of text.item_text items.now) }
{
    let (rows, others) = items.parts();
    print_even(rows, to)?;
    print_others(alloc, others, to)
}

#[tactic(auto, using(crate::proofs::Texts::joins))]
fn print_even(rows: &EvenRows, to: &mut Bytes) -> Result<(), NoMemory>
    ensures { OnOk result (to.new ≡ to.old ++ text.texts_of text.row_line rows.now) }
{
    for place in 0..rows.len() {
        print_values(rows.at(place), to)?;
    }
    Ok(())
}

#[tactic(auto, using(crate::proofs::Texts::joins))]
fn print_others(alloc: Global, items: &VecDeque<Item>, to: &mut Bytes) -> Result<(), NoMemory>
    ensures { OnOk result (to.new ≡ to.old ++ text.texts_of text.item_text items.now.items) }
{
    for place in 0..items.len() {
        print_item(alloc, &items[place], to)?;
    }
    Ok(())
}

#[tactic(auto, using(crate::proofs::Texts::joins))]
fn print_item(alloc: Global, item: &Item, to: &mut Bytes) -> Result<(), NoMemory>
    ensures { OnOk result (to.new ≡ to.old ++ text.item_text item.now) }
{
    match item {
        Item::Flat(Flat::One(row)) => print_values(row.values(), to),
        Item::Flat(Flat::Batch(batch)) => print_batch(alloc, batch, to),
        Item::Flat(Flat::Change(_)) | Item::Pack(_) => Ok(()),
    }
}

/// Appends the line of a row: its values in decimal, joined by commas.
#[tactic(auto, using(crate::proofs::Texts::joins))]
pub fn print_values(values: &[i64], to: &mut Bytes) -> Result<(), NoMemory>
    ensures { OnOk result (to.new ≡ to.old ++ text.row_line values.now) }
{
    if let Some((first, rest)) = values.split_first() {
        to.put_number(*first)?;
        print_more(rest, to)?;
    }
    to.extend(b"\n")
}

fn print_batch(alloc: Global, batch: &Batch, to: &mut Bytes) -> Result<(), NoMemory>
    ensures { OnOk result (to.new ≡ to.old ++ text.texts_of text.row_line (map (λ row. batch.now.at ∷ row) (in_order batch.now.rows))) }
{
    if is_ascending(batch.rows.as_slice()) {
        return print_timed_rows(batch.at, batch.rows.as_slice(), to);
    }
    print_sorted(alloc, batch, to)
}

// The same of rows in any order.
fn print_sorted(alloc: Global, batch: &Batch, to: &mut Bytes) -> Result<(), NoMemory>
    ensures { OnOk result (to.new ≡ to.old ++ text.texts_of text.row_line (map (λ row. batch.now.at ∷ row) (in_order batch.now.rows))) }
{
    let mut rows = batch.rows.copy(alloc)?;
    rows.sort()?;
    print_timed_rows(batch.at, rows.as_slice(), to)
}

// Whether no row is below the one before.
fn is_ascending(rows: &[Row]) -> bool
    ensures { result ≡ true → IsAscending rows.now }
{
    rows.is_sorted()
}

// Each row behind this instant.
#[tactic(auto, using(crate::proofs::Texts::joins))]
fn print_timed_rows(at: i64, rows: &[Row], to: &mut Bytes) -> Result<(), NoMemory>
    ensures { OnOk result (to.new ≡ to.old ++ text.texts_of text.row_line (map (λ row. at ∷ row) rows.now)) }
{
    for row in rows {
        print_timed(at, row, to)?;
    }
    Ok(())
}

// A row behind its instant.
#[tactic(auto, using(crate::proofs::Texts::joins))]
fn print_timed(at: i64, row: &Row, to: &mut Bytes) -> Result<(), NoMemory>
    ensures { OnOk result (to.new ≡ to.old ++ text.row_line (at ∷ row.now)) }
{
    to.put_number(at)?;
    print_more(row.values(), to)?;
    to.extend(b"\n")
}

// Each value behind a comma.
#[tactic(auto, using(crate::proofs::Texts::joins))]
fn print_more(values: &[i64], to: &mut Bytes) -> Result<(), NoMemory>
    ensures { OnOk result (to.new ≡ to.old ++ text.more_values values.now) }
{
    for value in values {
        to.extend(b",")?;
        to.put_number(*value)?;
    }
    Ok(())
}

fn print_firings(ops: &[Op], counts: &[i64], to: &mut Bytes) -> Result<(), NoMemory>
    requires { length counts.now ≡ length ops.now }
    ensures { OnOk result (to.new ≡ to.old ++ text.firings_text (labels (op_forms ops.now)) (Some counts.now)) }
{
    to.extend(b"## firings\n")?;
    print_counts(ops, counts, to)
}

#[tactic(auto, using(crate::proofs::Texts::joins))]
fn print_counts(ops: &[Op], counts: &[i64], to: &mut Bytes) -> Result<(), NoMemory>
    requires { length counts.now ≡ length ops.now }
    ensures { OnOk result (to.new ≡ to.old ++ text.count_lines (labels (op_forms ops.now)) counts.now) }
{
    for place in 0..ops.len() {
        print_count(&ops[place].label, counts[place], to)?;
    }
    Ok(())
}

#[tactic(auto, using(crate::proofs::Texts::joins))]
fn print_count(label: &Name, count: i64, to: &mut Bytes) -> Result<(), NoMemory>
    ensures { OnOk result (to.new ≡ to.old ++ text.count_line label.now count) }
{
    to.extend(label.as_slice())?;
    to.extend(b",")?;
    to.put_number(count)?;
    to.extend(b"\n")
}
