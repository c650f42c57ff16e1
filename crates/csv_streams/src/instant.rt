// Instants, and rows spread over them.
ghost use Rattle.std.specs.Prelude.{◌≡◌, ◌≤◌, ◌-◌, ◌∷◌, [], ◌++◌, ℤ, List, true, length, take, drop, map, IfOk, OnOk, OnErr};
ghost use Rattle.std.specs.List.Sorted.{IsSortedByKey};
ghost use Rattle.std.specs.Ordering.{int_cmp};
ghost use Rattle.river_base.specs.Instants as time;
ghost use Rattle.csv_streams.specs.SpreadOut.{IsFirstItem, IsEnd};

use river_base::{Batch, Flat, Item, Items, NoMemory, Numbers, Row, Rows, TimedFiles, TimedRows};
use std::alloc::Global;

/// The instants of a run: all timestamps of its files in ascending order, each once.
pub fn instants(alloc: Global, files: &TimedFiles) -> Result<Numbers, NoMemory>
    ensures { IfOk result (λ ts. ts ≡ time.instants files.now) }
{
    let mut stamps = Numbers::new(alloc);
    for place in 0..files.len() {
        add_stamps(files.at(place), &mut stamps)?;
    }
    stamps.keep_each_once();
    Ok(stamps)
}

/// Appends the timestamps of a file; changes nothing where there is no memory.
pub fn add_stamps(file: &TimedRows, stamps: &mut Numbers) -> Result<(), NoMemory>
    ensures ok { OnOk result (stamps.new ≡ stamps.old ++ map (λ (e : ℤ × List ℤ). e.0) file.now) }
    ensures err { OnErr result (stamps.new ≡ stamps.old) }
{
    let had = stamps.len();
    for entry in file.as_slice() {
        if let Err(wanting) = stamps.push(entry.0) {
            stamps.truncate(had);
            return Err(wanting);
        }
    }
    Ok(())
}

/// The rows of a file over the instants of a run: one batch for each instant, in their order, with the rows of this timestamp in
/// file order. An instant without rows has a batch without rows; a row whose timestamp is no instant is in no batch.
pub fn spread(alloc: Global, rows: &TimedRows, instants: &Numbers) -> Result<Items, NoMemory>
    ensures { IfOk result (λ items. items ≡ time.spread instants.now (time.at_instant rows.now)) }
{
    if is_in_turn(rows.as_slice()) {
        return batches(alloc, rows.as_slice(), instants.as_slice());
    }
    let sorted = in_turn(alloc, rows.as_slice())?;
    batches(alloc, sorted.as_slice(), instants.as_slice())
}

// Whether no timestamp is below the one before.
fn is_in_turn(rows: &[(i64, Row)]) -> bool
    ensures { result ≡ true → IsSortedByKey (λ (e : ℤ × List ℤ). e.0) int_cmp rows.now }
{
    for place in 1..rows.len() {
        if rows[place].0 < rows[place - 1].0 {
            return false;
        }
    }
    true
}

// The rows in order of their timestamps, and those of one timestamp in their order.
fn in_turn(alloc: Global, rows: &[(i64, Row)]) -> Result<Vec<(i64, Row)>, NoMemory>
    ensures sorted { IfOk result (λ sorted. IsSortedByKey (λ (e : ℤ × List ℤ). e.0) int_cmp sorted.items) }
    ensures same { IfOk result (λ sorted. (t : ℤ) → time.at_instant sorted.items t ≡ time.at_instant rows.now t) }
{
    let mut sorted = Vec::from_slice(alloc, rows)?;
    sorted.sort_by_key(|entry| entry.0)?;
    Ok(sorted)
}

// A batch for each instant.
fn batches(alloc: Global, rows: &[(i64, Row)], instants: &[i64]) -> Result<Items, NoMemory>
    requires { IsSortedByKey (λ (e : ℤ × List ℤ). e.0) int_cmp rows.now }
    ensures { IfOk result (λ items. items ≡ time.spread instants.now (time.at_instant rows.now)) }
{
    let mut items = Items::with_room(alloc, instants.len())?;
    add_batches(alloc, rows, instants, &mut items)?;
    Ok(items)
}

// Appends a batch for each instant. Its rows stand behind those of the instant before, where that is earlier.
fn add_batches(
    alloc: Global,
    rows: &[(i64, Row)],
    instants: &[i64],
    items: &mut Items,
) -> Result<(), NoMemory>
    requires { IsSortedByKey (λ (e : ℤ × List ℤ). e.0) int_cmp rows.now }
    ensures { OnOk result (items.new ≡ items.old ++ time.spread instants.now (time.at_instant rows.now)) }
{
    let mut next = 0;
    for at in instants {
        let (first, end) = places_at(rows, next, *at);
        add_batch(alloc, *at, &rows[first..end], items)?;
        next = end;
    }
    Ok(())
}

// Appends the batch of an instant, which has these rows.
fn add_batch(alloc: Global, at: i64, rows: &[(i64, Row)], items: &mut Items) -> Result<(), NoMemory>
    ensures { OnOk result (items.new ≡ items.old ++ time.item_at at (map (λ (e : ℤ × List ℤ). e.1) rows.now) ∷ []) }
{
    let rows = rows_of(alloc, rows)?;
    items.push(Item::Flat(Flat::Batch(Batch { at, rows })))
}

// The rows without their timestamps.
fn rows_of(alloc: Global, entries: &[(i64, Row)]) -> Result<Rows, NoMemory>
    ensures { IfOk result (λ rows. rows ≡ map (λ (e : ℤ × List ℤ). e.1) entries.now) }
{
    let mut rows = Rows::with_room(alloc, entries.len())?;
    add_rows_of(entries, &mut rows)?;
    Ok(rows)
}

fn add_rows_of(entries: &[(i64, Row)], rows: &mut Rows) -> Result<(), NoMemory>
    ensures { OnOk result (rows.new ≡ rows.old ++ map (λ (e : ℤ × List ℤ). e.1) entries.now) }
{
    for entry in entries {
        rows.push(entry.1)?;
    }
    Ok(())
}

// From where to where the rows of an instant stand; `guess` is tried first.
fn places_at(rows: &[(i64, Row)], guess: usize, at: i64) -> (usize, usize)
    requires sorted { IsSortedByKey (λ (e : ℤ × List ℤ). e.0) int_cmp rows.now }
    requires guess { guess ≤ length rows.now }
    ensures order { result.0 ≤ result.1 }
    ensures within { result.1 ≤ length rows.now }
    ensures rows { map (λ (e : ℤ × List ℤ). e.1) (take (result.1 - result.0) (drop result.0 rows.now)) ≡ time.at_instant rows.now at }
{
    let first = first_at(rows, guess, at);
    (first, end_at(rows, first, at))
}

// How many rows are below an instant.
fn first_at(rows: &[(i64, Row)], guess: usize, at: i64) -> usize
    requires sorted { IsSortedByKey (λ (e : ℤ × List ℤ). e.0) int_cmp rows.now }
    requires guess { guess ≤ length rows.now }
    ensures within { result ≤ length rows.now }
    ensures first { IsFirstItem rows.now at result }
{
    if is_first(rows, guess, at) {
        return guess;
    }
    rows.partition_point(|entry| entry.0 < at)
}

// Whether the rows in front of a place, and no others, are below an instant.
fn is_first(rows: &[(i64, Row)], place: usize, at: i64) -> bool
    requires sorted { IsSortedByKey (λ (e : ℤ × List ℤ). e.0) int_cmp rows.now }
    requires place { place ≤ length rows.now }
    ensures { result ≡ true → IsFirstItem rows.now at place }
{
    if place > 0 && rows[place - 1].0 >= at {
        return false;
    }
    place == rows.len() || rows[place].0 >= at
}

// How many rows are not above an instant, where those in front of `first` are below it.
fn end_at(rows: &[(i64, Row)], first: usize, at: i64) -> usize
    requires sorted { IsSortedByKey (λ (e : ℤ × List ℤ). e.0) int_cmp rows.now }
    requires within { first ≤ length rows.now }
    requires first { IsFirstItem rows.now at first }
    ensures order { first ≤ result }
    ensures within { result ≤ length rows.now }
    ensures end { IsEnd rows.now at result }
{
    let mut end = first;
    while end < rows.len() && rows[end].0 <= at {
        end += 1;
    }
    end
}
