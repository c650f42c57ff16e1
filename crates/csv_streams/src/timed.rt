// A file as rows with timestamps.
ghost use Rattle.std.specs.Prelude.{◌≡◌, ◌≤◌, ◌+◌, ℕ, List, pos, [], Ok, OnOk, IfErr};
ghost use Rattle.csv.specs.Records.{fields_of};
ghost use Rattle.csv_streams.specs.Records.{IsBehind};
ghost use Rattle.csv_streams.specs.Rows.{Appends, IsFaultTold, IsAnswer};
ghost use Rattle.csv_streams.specs.Timed.{timed_in, timed_of, stamp_after, in_time};

use crate::record::{headers, read_record, reader_of, values_in};
use crate::{InFault, MAX_ROWS};
use csv::{ByteRecord, Reader};
use river_base::{Bytes, Row, TimedRows};
use std::alloc::Global;

/// The rows of a file of timed rows of this width, from 1 to 16: a record has one field more than the row, and the first is its
/// timestamp, which is neither below 0 nor below that of the record before. Records and headers are those of `read_rows`. The
/// first record with a fault decides, and of its faults the first of: too many, fields, no number, below 0, backwards.
pub fn read_timed(
    alloc: Global,
    bytes: &Bytes,
    width: u32,
    skip_first: bool,
) -> Result<TimedRows, InFault>
    requires some { 1 ≤ width }
    requires at_most { width ≤ 16 }
    ensures { IsAnswer (timed_of bytes.now width skip_first) result }
{
    let mut rows = TimedRows::new(alloc);
    add_timed_rows(alloc, bytes, width, skip_first, &mut rows)?;
    Ok(rows)
}

// Reads the timed rows of a file into a list that has none.
fn add_timed_rows(
    alloc: Global,
    bytes: &Bytes,
    width: u32,
    skip_first: bool,
    rows: &mut TimedRows,
) -> Result<(), InFault>
    requires some { 1 ≤ width }
    requires at_most { width ≤ 16 }
    requires none { rows.old ≡ [] }
    ensures ok { OnOk result (timed_of bytes.now width skip_first ≡ Ok rows.new) }
    ensures fault { IfErr result (IsFaultTold (timed_of bytes.now width skip_first)) }
{
    let mut rdr = reader_of(alloc, bytes);
    let mut record = ByteRecord::new(alloc);
    add_timed_records(&mut rdr, &mut record, width, skip_first, rows)
}

// Reads the timed rows of all records into a list that has none.
fn add_timed_records(
    rdr: &mut Reader<&[u8]>,
    record: &mut ByteRecord,
    width: u32,
    skip_first: bool,
    rows: &mut TimedRows,
) -> Result<(), InFault>
    requires some { 1 ≤ width }
    requires at_most { width ≤ 16 }
    requires none { rows.old ≡ [] }
    requires first { (bytes : List ℕ) × IsBehind bytes [] rdr.old }
    ensures ok { OnOk result ((bytes : List ℕ) → IsBehind bytes [] rdr.old → timed_of bytes width skip_first ≡ Ok rows.new) }
    ensures fault { IfErr result (λ f. (bytes : List ℕ) → IsBehind bytes [] rdr.old → IsFaultTold (timed_of bytes width skip_first) f) }
{
    let header = headers(skip_first);
    let last = header + MAX_ROWS;
    let mut rec = 0u32;
    while read_record(rdr, record)? {
        rec += 1;
        if rec > header {
            add_timed_row(record, rec, last, width as usize, rows)?;
        }
    }
    Ok(())
}

// Appends the row of record number `rec`, behind those of the records before.
fn add_timed_row(
    raw: &ByteRecord,
    rec: u32,
    last: u32,
    width: usize,
    rows: &mut TimedRows,
) -> Result<(), InFault>
    requires some { 1 ≤ width }
    requires at_most { width ≤ 16 }
    ensures ok { OnOk result (Appends (timed_in width last (stamp_after (pos 0) rows.old) rec (fields_of raw.now)) rows.old rows.new) }
    ensures fault { IfErr result (IsFaultTold (timed_in width last (stamp_after (pos 0) rows.old) rec (fields_of raw.now))) }
{
    let values = values_in(raw, rec, last, width + 1, false)?;
    check_time(rec, last_stamp(rows), values[0])?;
    rows.push((values[0], Row::from_slice(&values[1..=width])))?;
    Ok(())
}

// Refuses a timestamp below 0 or below the one before.
fn check_time(rec: u32, before: i64, at: i64) -> Result<(), InFault>
    ensures { result ≡ in_time rec before at }
{
    if at < 0 {
        return Err(InFault::NegativeTime { rec });
    }
    if at < before {
        return Err(InFault::Backwards { rec });
    }
    Ok(())
}

// The timestamp of the last row; 0 where there is none.
fn last_stamp(rows: &TimedRows) -> i64
    ensures { result ≡ stamp_after (pos 0) rows.now }
{
    let rows = rows.as_slice();
    if rows.is_empty() {
        return 0;
    }
    rows[rows.len() - 1].0
}
