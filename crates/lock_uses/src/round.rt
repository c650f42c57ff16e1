// A whole round of two workers.
ghost use Rattle.std.specs.Prelude.{◌≡◌, ℕ, false, length, IfOk};
ghost use Rattle.class_locks.specs.Seats.{TableId, seats_from};
ghost use Rattle.lock_uses.specs.Crews.{AreSeated, HaveTurned, HasTotal, two_blank, blank_cell, first_view};
ghost use Rattle.lock_uses.specs.Uses.{HasWorked};

use crate::crew::{Worker, work_both};
use class_locks::{Cell, Cells, Seat, Seats, TableKinds, begin, close};
use kern_tables::TableKind;
use river_base::{Listed, NoMemory};
use std::alloc::Global;
use std::thread::Threads;

/// Two workers, each on a thread of its own, add rows to the tables of two classes, as often as is wanted. What the tables have
/// then, and how often each worker added.
pub fn run_two<R: Threads + Sync>(
    rt: &R,
    alloc: Global,
    wanted: u32,
) -> Result<(Cells, u32, u32), NoMemory>
    ensures { IfOk result (λ r. HasTotal r.1 r.2 r.0) }
{
    let mut cells = two_cells(alloc)?;
    let mut workers = seated(alloc, &mut cells, wanted)?;
    work_both(rt, workers.as_mut_slice());
    let (first, second) = finish(workers, &mut cells)?;
    Ok((cells, first, second))
}

// Two cells, each with an empty table of sums.
fn two_cells(alloc: Global) -> Result<Cells, NoMemory>
    ensures { IfOk result (λ cells. cells ≡ two_blank) }
{
    let mut cells = Listed::new(alloc);
    cells.push(one_cell(alloc, 0)?)?;
    cells.push(one_cell(alloc, 1)?)?;
    Ok(cells)
}

fn one_cell(alloc: Global, table: u32) -> Result<Cell, NoMemory>
    ensures { IfOk result (λ cell. cell ≡ blank_cell table) }
{
    let mut kinds = TableKinds::new(alloc);
    kinds.push((table, TableKind::Sum { keys: 0 }))?;
    Cell::empty(alloc, &kinds)
}

// Two workers at the seats of a round over these cells.
fn seated(alloc: Global, cells: &mut Cells, wanted: u32) -> Result<Vec<Worker>, NoMemory>
    requires { cells.old ≡ two_blank }
    ensures cells { IfOk result (λ workers. length cells.new ≡ 2) }
    ensures workers { IfOk result (λ workers. AreSeated workers.items) }
{
    match begin(alloc, cells, 2) {
        Ok(seats) => crew_of(alloc, seats, wanted),
        Err(_) => Err(NoMemory),
    }
}

// A worker for each of two seats.
fn crew_of(alloc: Global, mut seats: Seats, wanted: u32) -> Result<Vec<Worker>, NoMemory>
    requires { (z : TableId) × (seats.items ≡ seats_from z 2 two_blank 0 2) }
    ensures { IfOk result (λ workers. AreSeated workers.items) }
{
    let mut workers = Vec::with_capacity(alloc, 2)?;
    let (Some(second), Some(first)) = (seats.pop(), seats.pop()) else {
        unreachable!();
    };
    workers.push_reserved(worker(alloc, first, 0, wanted));
    workers.push_reserved(worker(alloc, second, 1, wanted));
    Ok(workers)
}

fn worker(alloc: Global, seat: Seat, op: u32, wanted: u32) -> Worker
    ensures seat { result.seat ≡ seat }
    ensures op { result.op ≡ op }
    ensures calm { result.refused ≡ false }
{
    Worker {
        alloc,
        seat,
        op,
        wanted,
        added: 0,
        refused: false,
    }
}

// The end of the round: how often each worker added.
fn finish(mut workers: Vec<Worker>, cells: &mut Cells) -> Result<(u32, u32), NoMemory>
    requires turned { HaveTurned workers.items }
    requires cells { length cells.old ≡ 2 }
    ensures { IfOk result (λ r. HasTotal r.0 r.1 cells.new) }
{
    let (Some(second), Some(first)) = (workers.pop(), workers.pop()) else {
        unreachable!();
    };
    if first.refused || second.refused {
        return Err(NoMemory);
    }
    let counts = (first.added, second.added);
    end(first.seat, second.seat, cells);
    Ok(counts)
}

// The seats become one, and the cells go back to their places.
fn end(mut first: Seat, second: Seat, cells: &mut Cells)
    requires lot { second.lot ≡ first.lot }
    requires worked { (a : ℕ) × (b : ℕ) × HasWorked 0 a (first_view 0) first.view × HasWorked 1 b (first_view 1) second.view }
    requires cells { length cells.old ≡ 2 }
    ensures { (a b : ℕ) → HasWorked 0 a (first_view 0) first.view → HasWorked 1 b (first_view 1) second.view → HasTotal a b cells.new }
{
    first.join(second);
    close(first, cells);
}
