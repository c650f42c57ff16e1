// The tables are printed.
ghost use Rattle.std.specs.Prelude.{◌≡◌, ◌++◌, length, map, OnOk};
ghost use Rattle.kern_tables.specs.Kept.{rows_of};
ghost use Rattle.river_plan.specs.Forms.{table_names};
ghost use Rattle.csv_streams.specs.Outcome as text;

use csv_streams::{print_head, print_values};
use kern_tables::Table;
use river_base::{Bytes, Name, NoMemory, Rows};
use river_plan::TableDecl;
use std::alloc::Global;

/// Appends the line `# NAME` for each table in order, and a line for each of its rows.
#[tactic(auto, using(csv_streams::proofs::Texts::joins))]
pub(crate) fn print_tables(
    alloc: Global,
    tables: &[TableDecl],
    kept: &[Table],
    to: &mut Bytes,
) -> Result<(), NoMemory>
    requires { length kept.now ≡ length tables.now }
    ensures { OnOk result (to.new ≡ to.old ++ text.tables_text (table_names tables.now) (map rows_of kept.now)) }
{
    for place in 0..tables.len() {
        print_table(alloc, &tables[place].name, &kept[place], to)?;
    }
    Ok(())
}

#[tactic(auto, using(csv_streams::proofs::Texts::joins))]
fn print_table(alloc: Global, name: &Name, table: &Table, to: &mut Bytes) -> Result<(), NoMemory>
    ensures { OnOk result (to.new ≡ to.old ++ text.table_rows_text name.now (rows_of table.now)) }
{
    let rows = table.rows(alloc)?;
    print_head(name, to)?;
    print_rows(&rows, to)
}

#[tactic(auto, using(csv_streams::proofs::Texts::joins))]
fn print_rows(rows: &Rows, to: &mut Bytes) -> Result<(), NoMemory>
    ensures { OnOk result (to.new ≡ to.old ++ text.texts_of text.row_line rows.now) }
{
    for row in rows.as_slice() {
        print_values(row.values(), to)?;
    }
    Ok(())
}
