// A file as rows.
ghost use Rattle.std.specs.Prelude.{◌≡◌, ◌≤◌, ℕ, List, [], Ok, IfOk, OnOk, IfErr};
ghost use Rattle.river_base.specs.Held.{HaveWidth};
ghost use Rattle.csv.specs.Records.{fields_of};
ghost use Rattle.csv_streams.specs.Records.{IsBehind};
ghost use Rattle.csv_streams.specs.Rows.{row_in, rows_of_file, Appends, IsFaultTold, IsAnswer};

use crate::InFault;
use crate::record::{headers, read_record, reader_of, values_in};
use csv::{ByteRecord, Reader};
use kern_rows::EvenRows;
use river_base::{Bytes, NoMemory, Row, Rows};
use std::alloc::Global;

/// How many records a file has at most, not counting a header.
pub const MAX_ROWS: u32 = 100_000;

/// The rows of a file of rows of this width, from 1 to 16. Records are those that the crate `csv` gives, with commas and double
/// quotes; with `skip_first` the first is a header, which is passed over. With `more` a record may have further fields, which are
/// not looked at. The first record with a fault decides.
pub fn read_rows(
    alloc: Global,
    bytes: &Bytes,
    width: u32,
    skip_first: bool,
    more: bool,
) -> Result<Rows, InFault>
    requires some { 1 ≤ width }
    requires at_most { width ≤ 16 }
    ensures { IsAnswer (rows_of_file bytes.now width skip_first more) result }
{
    let even = read_even(alloc, bytes, width, skip_first, more)?;
    Ok(rows_in(alloc, &even)?)
}

/// The same, where the values of the rows alone are kept.
pub fn read_even(
    alloc: Global,
    bytes: &Bytes,
    width: u32,
    skip_first: bool,
    more: bool,
) -> Result<EvenRows, InFault>
    requires some { 1 ≤ width }
    requires at_most { width ≤ 16 }
    ensures { IsAnswer (rows_of_file bytes.now width skip_first more) result }
{
    let mut rows = EvenRows::new(alloc);
    add_rows(alloc, bytes, width, skip_first, more, &mut rows)?;
    Ok(rows)
}

// Each row by itself.
fn rows_in(alloc: Global, even: &EvenRows) -> Result<Rows, NoMemory>
    ensures { IfOk result (λ rows. rows ≡ even.now) }
{
    let mut rows = Rows::new(alloc);
    for place in 0..even.len() {
        rows.push(Row::from_slice(even.at(place)))?;
    }
    Ok(rows)
}

// Reads the rows of a file into a list that has none.
fn add_rows(
    alloc: Global,
    bytes: &Bytes,
    width: u32,
    skip_first: bool,
    more: bool,
    rows: &mut EvenRows,
) -> Result<(), InFault>
    requires some { 1 ≤ width }
    requires at_most { width ≤ 16 }
    requires none { rows.old ≡ [] }
    ensures ok { OnOk result (rows_of_file bytes.now width skip_first more ≡ Ok rows.new) }
    ensures fault { IfErr result (IsFaultTold (rows_of_file bytes.now width skip_first more)) }
{
    let mut rdr = reader_of(alloc, bytes);
    let mut record = ByteRecord::new(alloc);
    add_records(&mut rdr, &mut record, width, skip_first, more, rows)
}

// Reads the rows of all records into a list that has none.
fn add_records(
    rdr: &mut Reader<&[u8]>,
    record: &mut ByteRecord,
    width: u32,
    skip_first: bool,
    more: bool,
    rows: &mut EvenRows,
) -> Result<(), InFault>
    requires some { 1 ≤ width }
    requires at_most { width ≤ 16 }
    requires none { rows.old ≡ [] }
    requires first { (bytes : List ℕ) × IsBehind bytes [] rdr.old }
    ensures ok { OnOk result ((bytes : List ℕ) → IsBehind bytes [] rdr.old → rows_of_file bytes width skip_first more ≡ Ok rows.new) }
    ensures fault { IfErr result (λ f. (bytes : List ℕ) → IsBehind bytes [] rdr.old → IsFaultTold (rows_of_file bytes width skip_first more) f) }
{
    let header = headers(skip_first);
    let last = header + MAX_ROWS;
    let mut rec = 0u32;
    while read_record(rdr, record)? {
        rec += 1;
        if rec > header {
            add_row(record, rec, last, width as usize, more, rows)?;
        }
    }
    Ok(())
}

// Appends the row of record number `rec`.
fn add_row(
    raw: &ByteRecord,
    rec: u32,
    last: u32,
    width: usize,
    more: bool,
    rows: &mut EvenRows,
) -> Result<(), InFault>
    requires some { 1 ≤ width }
    requires at_most { width ≤ 16 }
    requires wide { HaveWidth width rows.old }
    ensures wide { OnOk result (HaveWidth width rows.new) }
    ensures ok { OnOk result (Appends (row_in width more last rec (fields_of raw.now)) rows.old rows.new) }
    ensures fault { IfErr result (IsFaultTold (row_in width more last rec (fields_of raw.now))) }
{
    let values = values_in(raw, rec, last, width, more)?;
    rows.push(&values[..width])?;
    Ok(())
}
