// The rows that a firing adds to tables.
ghost use Rattle.std.specs.Prelude.{◌≡◌, ◌≤◌, All, length, fold, OnOk};
ghost use Rattle.river_base.specs.Places.{list_at};
ghost use Rattle.kern_tables.specs.Kept.{with_row, width_of_table};
ghost use Rattle.brooklet_step.specs.ByPlace.{joined_at};
ghost use Rattle.brooklet_step.specs.Tables.{each_added, table_places, AreFor};

use brooklet_step::{RowLists, Tables};
use kern_tables::Table;
use river_base::{NoMemory, Rows};

/// What a firing adds to the tables among its operator's variables, which are given by their places.
/// Where there is no memory some of the rows were added; the machine is stopped then.
pub(crate) fn add_all(tables: &mut Tables, vars: &[usize], adds: &RowLists) -> Result<(), NoMemory>
    requires many { length (table_places (length tables.old) vars.now) ≤ length adds.now }
    requires wide { AreFor tables.old (table_places (length tables.old) vars.now) adds.now }
    ensures { OnOk result (tables.new ≡ each_added tables.old (joined_at (table_places (length tables.old) vars.now) (list_at adds.now))) }
{
    let mut number = 0;
    for var in vars {
        if *var < tables.len() {
            add_rows(tables.at_mut(*var), adds.at(number))?;
            number += 1;
        }
    }
    Ok(())
}

// Rows for a table, one after another.
fn add_rows(table: &mut Table, rows: &Rows) -> Result<(), NoMemory>
    requires { All (λ row. length row ≡ width_of_table table.old) rows.now }
    ensures { OnOk result (table.new ≡ fold with_row table.old rows.now) }
{
    for row in rows.as_slice() {
        table.add(row)?;
    }
    Ok(())
}
