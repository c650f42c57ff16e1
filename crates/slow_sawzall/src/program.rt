// What a Sawzall program means: what all records emit, and what each table makes of it.
ghost use Rattle.std.specs.Prelude.{◌≡◌, [], ◌∷◌, ◌++◌, map, IfOk, OnOk};
ghost use Rattle.kern_tables.specs.Tables.{tab, table_width};
ghost use Rattle.kern_tables.specs.Kept.{kept_of, rows_of, width_of_table, kind_of_table as kind_kept};
ghost use Rattle.saw_model.specs.Meaning.{table_kind_of, rows_for, program_tables};
ghost use Rattle.saw_text.specs.Tree.{unit_form, unit_forms, program_of};
ghost use Rattle.saw_front.specs.Valued.{AreValuedUnits};
ghost use Rattle.slow_sawzall.specs.Sawzall.{IsAccepted, tables_for, AreAllWide, IsWideFor, AreWideFor};

use crate::run::Run;
use brooklet_step::{Lines, Outcome, Tables};
use kern_tables::{Table, TableKind};
use river_base::{Name, NoMemory, Numbers, Row, Rows};
use saw_text::{Kind, SawProgram, Unit};
use std::alloc::Global;

/// What a program that is accepted means for these records, by its language's own definition.
///
/// # Errors
///
/// `NoMemory` where there is no memory.
pub fn mean_sawzall(alloc: Global, program: &SawProgram, rows: &Rows) -> Result<Outcome, NoMemory>
    requires accepted { IsAccepted (program_of program.now) }
    requires valued { AreValuedUnits (program_of program.now) }
    ensures outs { IfOk result (λ outcome. outcome.outs ≡ []) }
    ensures tables { IfOk result (λ outcome. map rows_of outcome.tables ≡ program_tables (program_of program.now) rows.now) }
    ensures counts { IfOk result (λ outcome. outcome.counts ≡ []) }
{
    let tables = meant_tables(alloc, program.units.as_slice(), rows)?;
    Ok(Outcome {
        outs: Lines::new(alloc),
        tables,
        counts: Numbers::new(alloc),
    })
}

// The tables, each of what all records emit to it.
fn meant_tables(alloc: Global, units: &[Unit], rows: &Rows) -> Result<Tables, NoMemory>
    requires accepted { IsAccepted (unit_forms units.now) }
    requires valued { AreValuedUnits (unit_forms units.now) }
    ensures { IfOk result (λ tables. map rows_of tables ≡ program_tables (unit_forms units.now) rows.now) }
{
    let mut run = Run::new(alloc);
    run.records(alloc, units, rows.as_slice())?;
    tables(alloc, units, run.emitted.as_slice())
}

// The tables of a program, each of what was emitted to it.
fn tables(alloc: Global, units: &[Unit], emitted: &[(Name, Row)]) -> Result<Tables, NoMemory>
    requires { AreWideFor (unit_forms units.now) emitted.now }
    ensures { IfOk result (λ tables. map rows_of tables ≡ tables_for (unit_forms units.now) emitted.now) }
{
    let mut all = Tables::new(alloc);
    add_tables(alloc, units, emitted, &mut all)?;
    Ok(all)
}

// The same, where there is none yet.
fn add_tables(
    alloc: Global,
    units: &[Unit],
    emitted: &[(Name, Row)],
    all: &mut Tables,
) -> Result<(), NoMemory>
    requires none { all.old ≡ [] }
    requires wide { AreWideFor (unit_forms units.now) emitted.now }
    ensures { OnOk result (map rows_of all.new ≡ tables_for (unit_forms units.now) emitted.now) }
{
    for unit in units {
        add_table(alloc, unit, emitted, all)?;
    }
    Ok(())
}

// The table of a unit, where it is one, behind those that are there.
fn add_table(
    alloc: Global,
    unit: &Unit,
    emitted: &[(Name, Row)],
    all: &mut Tables,
) -> Result<(), NoMemory>
    requires { IsWideFor (unit_form unit.now) emitted.now }
    ensures { OnOk result (map rows_of all.new ≡ map rows_of all.old ++ tables_for (unit_form unit.now ∷ []) emitted.now) }
{
    match unit {
        Unit::Statement(_) => Ok(()),
        Unit::Table(table) => {
            let Ok(keys) = u32::try_from(table.indexes.len()) else {
                return Err(NoMemory);
            };
            all.push(made_table(alloc, &table.name, kind_of(table.kind, keys), emitted)?)
        }
    }
}

// The kind of a table that has so many keys.
fn kind_of(kind: Kind, keys: u32) -> TableKind
    ensures { result ≡ table_kind_of kind keys }
{
    match kind {
        Kind::Sum => TableKind::Sum { keys },
        Kind::Collection => TableKind::Collection { keys },
        Kind::Maximum(best) => TableKind::Maximum { best, keys },
    }
}

// A table of a name, of what was emitted to it.
fn made_table(
    alloc: Global,
    name: &Name,
    kind: TableKind,
    emitted: &[(Name, Row)],
) -> Result<Table, NoMemory>
    requires { AreAllWide (table_width kind) (rows_for name.now emitted.now) }
    ensures { IfOk result (λ table. rows_of table ≡ tab kind (rows_for name.now emitted.now)) }
{
    let mut table = Table::new(alloc, kind);
    add_rows(name, emitted, &mut table)?;
    Ok(table)
}

// Adds what was emitted to it to a table that has no row yet.
fn add_rows(name: &Name, emitted: &[(Name, Row)], table: &mut Table) -> Result<(), NoMemory>
    requires none { table.old ≡ kept_of (kind_kept table.old) [] }
    requires wide { AreAllWide (width_of_table table.old) (rows_for name.now emitted.now) }
    ensures { OnOk result (rows_of table.new ≡ tab (kind_kept table.old) (rows_for name.now emitted.now)) }
{
    for one in emitted {
        if one.0 == *name {
            table.add(&one.1)?;
        }
    }
    Ok(())
}
