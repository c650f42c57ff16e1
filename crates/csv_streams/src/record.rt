// The records of a file, and the values in their fields.
ghost use Rattle.std.specs.Prelude.{◌≡◌, ◌≤◌, ◌<◌, ◌+◌, ℕ, List, [], length, take, option_and_then, Ok, Err, IfOk, IfErr};
ghost use Rattle.csv.specs.Records.{fields_of, field_at};
ghost use Rattle.csv_streams.specs.Number.{number_in};
ghost use Rattle.csv_streams.specs.Numbered.{numbered_results};
ghost use Rattle.csv_streams.specs.Records.{IsBehind, ReadsRecord};
ghost use Rattle.csv_streams.specs.Rows.{value_or, value_of_field, has_width, row_in, headers};
ghost use Rattle.csv_streams.specs.declared.fault.InFault.TheVariants as fault;

use crate::{InFault, read_number};
use csv::{ByteRecord, Reader, ReaderBuilder};
use river_base::{Bytes, MAX_ROW};
use std::alloc::Global;

// How many fields of a record are read at most: a timestamp, and a row.
const MAX_FIELDS: usize = MAX_ROW + 1;

/// A reader of the records of these bytes, with commas and double quotes, none of which is a header.
pub(crate) fn reader_of(alloc: Global, bytes: &Bytes) -> Reader<&[u8]>
    ensures { IsBehind bytes.now [] result }
{
    ReaderBuilder::new()
        .has_headers(false)
        .flexible(true)
        .from_reader(alloc, bytes.as_slice())
}

/// Reads the next record, if there is one; a reader of bytes fails for want of memory alone.
pub(crate) fn read_record(rdr: &mut Reader<&[u8]>, raw: &mut ByteRecord) -> Result<bool, InFault>
    requires { (bytes : List ℕ) × (recs : List (List (List ℕ))) × IsBehind bytes recs rdr.old }
    ensures ok { IfOk result (λ found. (bytes : List ℕ) (recs : _) → IsBehind bytes recs rdr.old → ReadsRecord bytes recs (fields_of raw.new) rdr.new found) }
    ensures fault { IfErr result (λ f. f ≡ fault.NoMemory) }
{
    match rdr.read_byte_record(raw) {
        Ok(found) => Ok(found),
        Err(_) => Err(InFault::NoMemory),
    }
}

/// How many records are passed over at the front.
pub(crate) fn headers(skip_first: bool) -> u32
    ensures { result ≡ headers skip_first }
{
    if skip_first { 1 } else { 0 }
}

/// The first values of record number `rec`, as many as `width`, where `last` is the number of the last record that may be.
pub(crate) fn values_in(
    raw: &ByteRecord,
    rec: u32,
    last: u32,
    width: usize,
    more: bool,
) -> Result<[i64; 17], InFault>
    requires { width ≤ 17 }
    ensures room { IfOk result (λ values. length values ≡ 17) }
    ensures ok { IfOk result (λ values. row_in width more last rec (fields_of raw.now) ≡ Ok (take width values)) }
    ensures fault { IfErr result (λ f. row_in width more last rec (fields_of raw.now) ≡ Err f) }
{
    if rec > last {
        return Err(InFault::TooMany);
    }
    if !has_width(raw.len(), width, more) {
        return Err(InFault::Width { rec });
    }
    values_of(raw, rec, width)
}

// Whether a record of so many fields has a row of this width.
fn has_width(count: usize, width: usize, more: bool) -> bool
    ensures { result ≡ has_width width more count }
{
    if more { width <= count } else { count == width }
}

// The values of the first fields, as many as `width`.
fn values_of(raw: &ByteRecord, rec: u32, width: usize) -> Result<[i64; 17], InFault>
    requires at_most { width ≤ 17 }
    requires within { width ≤ length (fields_of raw.now) }
    ensures room { IfOk result (λ values. length values ≡ 17) }
    ensures ok { IfOk result (λ values. numbered_results (value_of_field rec) 1 (take width (fields_of raw.now)) ≡ Ok (take width values)) }
    ensures fault { IfErr result (λ f. numbered_results (value_of_field rec) 1 (take width (fields_of raw.now)) ≡ Err f) }
{
    let mut values = [0; MAX_FIELDS];
    for place in 0..width {
        values[place] = value_at(raw, rec, place)?;
    }
    Ok(values)
}

// The value of the field at a place, from 0.
fn value_at(raw: &ByteRecord, rec: u32, place: usize) -> Result<i64, InFault>
    requires { place < 17 }
    ensures { result ≡ value_or rec (place + 1) (option_and_then number_in (field_at (fields_of raw.now) place)) }
{
    match raw.get(place).and_then(read_number) {
        Some(x) => Ok(x),
        None => Err(InFault::NotNumber {
            rec,
            field: place as u32 + 1,
        }),
    }
}
