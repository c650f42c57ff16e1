// The rows of a section are added to a table.
ghost use Rattle.std.specs.Prelude.{◌≡◌, ◌≤◌, [], OnOk, IfErr};
ghost use Rattle.csv.specs.Records.{fields_of};
ghost use Rattle.csv_streams.specs.Records.{IsBehind};
ghost use Rattle.kern_tables.specs.Kept.{kind_of_table, width_of_table};
ghost use Rattle.piece_merge.specs.Faults.{SaysNoRows, SaysNoRow};
ghost use Rattle.piece_merge.specs.Steps.{AddedSection, AddedRecord};

use crate::NoMerge;
use crate::record::{read_record, reader_of, row_of};
use csv::{ByteRecord, Reader};
use csv_cuts::records_in;
use kern_tables::Table;
use river_base::Bytes;
use std::alloc::Global;

/// Adds the rows of a section to a table, whose rows have so many values; `Other` exactly where it has no such rows.
pub(crate) fn add_section(
    alloc: Global,
    section: &Bytes,
    width: usize,
    table: &mut Table,
) -> Result<(), NoMerge>
    requires width { width ≡ width_of_table table.old }
    requires some { 1 ≤ width }
    requires at_most { width ≤ 16 }
    ensures kind { kind_of_table table.new ≡ kind_of_table table.old }
    ensures ok { OnOk result (AddedSection section.now table.old table.new) }
    ensures none { IfErr result (SaysNoRows (kind_of_table table.old) section.now) }
{
    let mut rdr = reader_of(alloc, section);
    let mut raw = ByteRecord::new(alloc);
    add_records(section, &mut rdr, &mut raw, width, table)
}

// Adds the rows of all records of the section, of which the reader has read none.
fn add_records(
    section: &Bytes,
    rdr: &mut Reader<&[u8]>,
    raw: &mut ByteRecord,
    width: usize,
    table: &mut Table,
) -> Result<(), NoMerge>
    requires width { width ≡ width_of_table table.old }
    requires some { 1 ≤ width }
    requires at_most { width ≤ 16 }
    requires first { IsBehind section.now [] rdr.old }
    ensures kind { kind_of_table table.new ≡ kind_of_table table.old }
    ensures ok { OnOk result (AddedSection section.now table.old table.new) }
    ensures none { IfErr result (SaysNoRows (kind_of_table table.old) section.now) }
{
    for _n in 0..records_in(section.as_slice()) {
        if !read_record(rdr, raw)? {
            return Ok(());
        }
        add_record(raw, width, table)?;
    }
    Ok(())
}

// Adds the row of a record.
fn add_record(raw: &ByteRecord, width: usize, table: &mut Table) -> Result<(), NoMerge>
    requires width { width ≡ width_of_table table.old }
    requires some { 1 ≤ width }
    requires at_most { width ≤ 16 }
    ensures kind { kind_of_table table.new ≡ kind_of_table table.old }
    ensures ok { OnOk result (AddedRecord (fields_of raw.now) table.old table.new) }
    ensures none { IfErr result (SaysNoRow (kind_of_table table.old) (fields_of raw.now)) }
{
    let Some(row) = row_of(raw, width) else {
        return Err(NoMerge::Other);
    };
    table.add(&row)?;
    Ok(())
}
