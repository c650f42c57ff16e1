// Units, one after another.
ghost use Rattle.std.specs.Prelude.{◌≡◌, ◌<◌, length, OnOk};
ghost use Rattle.saw_model.specs.Elaborate.{is_best, table_of, unit_judged as read_part};
ghost use Rattle.saw_model.specs.Judged.{units_judged};
ghost use Rattle.saw_model.specs.Meaning.{table_kind_of};
ghost use Rattle.saw_text.specs.Tree.{unit_form, unit_forms};
ghost use Rattle.saw_front.specs.View.{JudgesAlways};
ghost use Rattle.saw_front.specs.Judging.{at_of, fits_of, kind_within, Reads, ReadsTable, JudgesAll};
ghost use Rattle.saw_front.specs.Valued.{IsValuedUnit, AreValuedUnits};

use crate::judge::Judge;
use crate::names::Known;
use crate::refused::{Refused, RefusedUnit};
use kern_tables::TableKind;
use river_base::MOST_KEPT;
use saw_model::{Fault, Refusal};
use saw_text::{Kind, Table, Unit};
use std::alloc::Global;
use work_code::Stmts;

/// The kind of a table that has so many keys.
pub(crate) fn kind_of(kind: Kind, keys: u32) -> TableKind
    ensures { result ≡ table_kind_of kind keys }
{
    match kind {
        Kind::Sum => TableKind::Sum { keys },
        Kind::Collection => TableKind::Collection { keys },
        Kind::Maximum(best) => TableKind::Maximum { best, keys },
    }
}

// Whether a maximum keeps 1 to 1,000,000 rows for each key.
fn is_best(kind: TableKind) -> bool
    ensures { result ≡ is_best kind }
{
    match kind {
        TableKind::Sum { .. } | TableKind::Collection { .. } => true,
        TableKind::Maximum { best, .. } => 1 <= best && best <= MOST_KEPT,
    }
}

// The kind of a table, which is within its limits.
fn within(table: &Table) -> Result<TableKind, Fault>
    ensures { JudgesAlways (λ k. k) result (kind_within (table_kind_of table.now.kind (length table.now.indexes.items))) }
{
    let Ok(keys) = u32::try_from(table.indexes.len()) else {
        return Err(Fault::Limit);
    };
    let kind = kind_of(table.kind, keys);
    if is_best(kind) && keys <= 8 {
        Ok(kind)
    } else {
        Err(Fault::Limit)
    }
}

impl Judge {
    /// All units of a program, one after another; their statements are appended.
    pub fn parts(&mut self, alloc: Global, units: &[Unit], out: &mut Stmts) -> Result<(), Refused>
        requires { AreValuedUnits (unit_forms units.now) }
        ensures { JudgesAll result out.old out.new self.new (units_judged 1 (unit_forms units.now) (at_of self.old)) }
    {
        for i in 0..units.len() {
            match self.part(alloc, &units[i], out) {
                Ok(()) => {}
                Err(RefusedUnit::Fault(fault)) => {
                    return Err(Refused::Program(Refusal { unit: i + 1, fault }));
                }
                Err(RefusedUnit::NoMemory) => return Err(Refused::NoMemory),
            }
        }
        Ok(())
    }

    // A unit of the program.
    fn part(&mut self, alloc: Global, unit: &Unit, out: &mut Stmts) -> Result<(), RefusedUnit>
        requires { IsValuedUnit (unit_form unit.now) }
        ensures { Reads result out.old out.new self.old self.new (read_part (unit_form unit.now) (at_of self.old)) }
    {
        match unit {
            Unit::Table(table) => self.table(table),
            Unit::Statement(statement) => self.statement(alloc, statement, out),
        }
    }

    // A table, which is known from here on.
    fn table(&mut self, table: &Table) -> Result<(), RefusedUnit>
        ensures { ReadsTable result self.old self.new
            (table_of table.now.name (table_kind_of table.now.kind (length table.now.indexes.items)) (at_of self.old)) }
    {
        let kind = self.fits(table)?;
        let place = self.tables;
        self.tables = place + 1;
        self.names
            .items
            .push((table.name, Known::Table { place, kind }))?;
        Ok(())
    }

    // The kind of a table whose name is new, where there may be one more.
    fn fits(&self, table: &Table) -> Result<TableKind, Fault>
        ensures judged { JudgesAlways (λ k. k) result (fits_of (at_of self.now) table.now.name (table_kind_of table.now.kind (length table.now.indexes.items))) }
        ensures few { OnOk result (self.now.tables < 64) }
    {
        self.new_name(&table.name)?;
        if self.tables >= 64 {
            return Err(Fault::Limit);
        }
        within(table)
    }
}
