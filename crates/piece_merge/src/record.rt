// The records of a section, and their rows.
ghost use Rattle.std.specs.Prelude.{◌≡◌, ◌≤◌, ℕ, ℤ, List, [], false, length, take, option_and_then, IfOk, IfSome, IfNone};
ghost use Rattle.csv.specs.Records.{fields_of, field_at};
ghost use Rattle.csv_streams.specs.Number.{number_in};
ghost use Rattle.csv_streams.specs.Records.{IsBehind, ReadsRecord};
ghost use Rattle.csv_streams.specs.Written.{AllWrite, WritesRow};

use csv::{ByteRecord, Reader, ReaderBuilder};
use csv_streams::read_number;
use river_base::{Bytes, MAX_ROW, NoMemory, Row};
use std::alloc::Global;

/// A reader of the records of these bytes, with commas and double quotes, none of which is a header.
pub(crate) fn reader_of(alloc: Global, bytes: &Bytes) -> Reader<&[u8]>
    ensures { IsBehind bytes.now [] result }
{
    ReaderBuilder::new()
        .has_headers(false)
        .flexible(true)
        .from_reader(alloc, bytes.as_slice())
}

/// Reads the next record, if there is one; a reader of bytes fails for want of memory alone.
pub(crate) fn read_record(rdr: &mut Reader<&[u8]>, raw: &mut ByteRecord) -> Result<bool, NoMemory>
    requires { (bytes : List ℕ) × (recs : List (List (List ℕ))) × IsBehind bytes recs rdr.old }
    ensures { IfOk result (λ found. (bytes : List ℕ) (recs : _) → IsBehind bytes recs rdr.old → ReadsRecord bytes recs (fields_of raw.new) rdr.new found) }
{
    match rdr.read_byte_record(raw) {
        Ok(found) => Ok(found),
        Err(_) => Err(NoMemory),
    }
}

/// The row of a record of so many fields, each of which writes a value; None exactly where there is no such row.
pub(crate) fn row_of(raw: &ByteRecord, width: usize) -> Option<Row>
    requires some { 1 ≤ width }
    requires at_most { width ≤ 16 }
    ensures row { IfSome result (λ row. WritesRow width false (fields_of raw.now) row) }
    ensures none { IfNone result ((row : List ℤ) → WritesRow width false (fields_of raw.now) row → ⊥) }
{
    if raw.len() != width {
        return None;
    }
    let values = values_of(raw, width)?;
    Some(Row::from_slice(&values[..width]))
}

// The values of the first fields, as many as `width`.
fn values_of(raw: &ByteRecord, width: usize) -> Option<[i64; MAX_ROW]>
    requires at_most { width ≤ 16 }
    requires within { width ≤ length (fields_of raw.now) }
    ensures room { IfSome result (λ values. length values ≡ 16) }
    ensures all { IfSome result (λ values. AllWrite (take width (fields_of raw.now)) (take width values)) }
    ensures none { IfNone result ((row : List ℤ) → AllWrite (take width (fields_of raw.now)) row → ⊥) }
{
    let mut values = [0; MAX_ROW];
    for place in 0..width {
        values[place] = value_at(raw, place)?;
    }
    Some(values)
}

// The value of the field at a place, from 0.
fn value_at(raw: &ByteRecord, place: usize) -> Option<i64>
    ensures { result ≡ option_and_then number_in (field_at (fields_of raw.now) place) }
{
    read_number(raw.get(place)?)
}
