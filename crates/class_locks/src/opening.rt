// The beginning of a round.
ghost use Rattle.std.specs.Prelude.{◌≡◌, ◌<◌, ◌≤◌, ◌+◌, ◌^◌, ◌∷◌, [], ℕ, List, All, length, replicate, IfOk, OnErr, vec_len, vec_capacity};
ghost use Rattle.std.specs.Arc.{arc_value};
ghost use Rattle.class_locks.specs.Views.{count_up, held_at_classes};
ghost use Rattle.class_locks.specs.Seats.{TableId, IsSeated, IsLaid, seats_from, with_parts};

use crate::late::{BeginFault, Late};
use crate::law::{Arrive, Cut, Locks, Place, Top};
use crate::seat::{Seat, Seats};
use crate::steps::restore;
use crate::{About, Cell, Cells};
use atomic_table::Table;
use river_base::NoMemory;
use std::alloc::Global;
use std::mem::replace;
use std::snapshot::Snapshot;
use std::sync::Arc;

type Handle = Arc<Locks, Global>;

/// Seats for a round, each with one part and no class, and a lock for each cell. The cells go behind their locks, and cells without
/// tables stay in their places. Nothing changes where there is no memory, or where the swap of word 0 found 1.
pub fn begin(alloc: Global, cells: &mut Cells, seats: u32) -> Result<Seats, BeginFault>
    requires some { 0 < seats }
    requires classes { length cells.old < 2 ^ 31 }
    ensures cells { IfOk result (λ v. cells.new ≡ replicate (length cells.old) (record { kinds = []; log = [] })) }
    ensures seats { IfOk result (λ v. (z : TableId) × (v.items ≡ seats_from z seats cells.old 0 seats)) }
    ensures err { OnErr result (cells.new ≡ cells.old) }
{
    let (locks, handles, mut all) = prepare(alloc, cells, seats)?;
    let mut place = arrive(&locks.shared)?;
    send_home(alloc, &locks.shared, &mut place, cells);
    deal_all(&locks, &mut place, handles, &mut all);
    all.push_reserved(Seat { locks, place });
    Ok(all)
}

// All that takes memory: the table, a handle for each further seat, and room for the seats.
fn prepare(
    alloc: Global,
    cells: &Cells,
    seats: u32,
) -> Result<(Handle, Vec<Handle>, Vec<Seat>), NoMemory>
    requires some { 0 < seats }
    requires classes { length cells.now < 2 ^ 31 }
    ensures laid { IfOk result (λ t. IsLaid seats cells.now (arc_value t.0).shared.table_id (arc_value t.0).shared.key) }
    ensures handles { IfOk result (λ t. (length t.1.items + 1 ≡ seats) × All (λ a. arc_value a ≡ arc_value t.0) t.1.items) }
    ensures room { IfOk result (λ t. (t.2.items ≡ []) × (seats ≤ vec_capacity t.2)) }
{
    let locks = lay(alloc, cells, seats)?;
    let handles = handles_of(alloc, &locks, seats as usize - 1)?;
    let all = Vec::with_capacity(alloc, seats as usize)?;
    Ok((locks, handles, all))
}

// The table with its words and its empty slots.
fn lay(alloc: Global, cells: &Cells, seats: u32) -> Result<Handle, NoMemory>
    requires { length cells.now < 2 ^ 31 }
    ensures { IfOk result (λ a. IsLaid seats cells.now (arc_value a).shared.table_id (arc_value a).shared.key) }
{
    let mut words = Vec::from_elem(alloc, 1u64, cells.len() + 1)?;
    words[0] = 0;
    let about = About {
        seats,
        cells: Snapshot::of(cells),
    };
    let (table, _place): (Locks, Place) = Table::vacant(
        alloc,
        words.as_slice(),
        cells.len(),
        &about,
    )?;
    let locks = Arc::new(alloc, table)?;
    Ok(locks)
}

fn handles_of(alloc: Global, locks: &Handle, count: usize) -> Result<Vec<Handle>, NoMemory>
    ensures len { IfOk result (λ v. length v.items ≡ count) }
    ensures same { IfOk result (λ v. All (λ a. arc_value a ≡ arc_value locks.now) v.items) }
{
    let mut handles = Vec::new(alloc);
    for _i in 0..count {
        let handle = Arc::try_clone(locks)?;
        handles.push(handle)?;
    }
    Ok(handles)
}

// The first seat. It has every part, and holds every class.
fn arrive(top: &Top) -> Result<Place, Late>
    requires wide { top.now.table_id.words ≡ length top.now.key.cells.value + 1 }
    requires deep { top.now.table_id.slots ≡ length top.now.key.cells.value }
    requires some { 0 < top.now.key.seats }
    requires few { length top.now.key.cells.value < 2 ^ 31 }
    ensures seated { IfOk result (λ p. IsSeated top.now.table_id top.now.key p) }
    ensures view { IfOk result (λ p. p.me.0 ≡ with_parts top.now.key.seats top.now.key.cells.value
        (count_up 0 top.now.key.seats) (held_at_classes 0 top.now.key.cells.value)) }
{
    let (found, place) = top.swap_new_seat::<Arrive>(0, 1);
    if found == 0 {
        Ok(place)
    } else {
        Err(Late { place })
    }
}

// Each cell goes behind its lock.
fn send_home(alloc: Global, top: &Top, place: &mut Place, cells: &mut Cells)
    requires seated { IsSeated top.now.table_id top.now.key place.old }
    requires view { (parts : List ℕ) × (place.old.me.0 ≡ with_parts top.now.key.seats cells.old parts (held_at_classes 0 cells.old)) }
    requires few { length cells.old < 2 ^ 31 }
    ensures seated { IsSeated top.now.table_id top.now.key place.new }
    ensures view { place.new.me.0 ≡ with_parts top.now.key.seats cells.old place.old.me.0.parts [] }
    ensures cells { cells.new ≡ replicate (length cells.old) (record { kinds = []; log = [] }) }
{
    for class in 0..cells.len() {
        let cell = replace(cells.at_mut(class), Cell::bare(alloc));
        restore(top, place, class as u32, cell);
    }
}

// One part goes to a new seat.
fn deal(top: &Top, place: &mut Place) -> Place
    requires seated { IsSeated top.now.table_id top.now.key place.old }
    requires view { (k : ℕ) × (m : ℕ) × (place.old.me.0 ≡ with_parts top.now.key.seats top.now.key.cells.value (count_up k (m + 2)) []) }
    ensures seated { IsSeated top.now.table_id top.now.key place.new }
    ensures other { IsSeated top.now.table_id top.now.key result }
    ensures views { (k m : ℕ) → place.old.me.0 ≡ with_parts top.now.key.seats top.now.key.cells.value (count_up k (m + 2)) []
        → (place.new.me.0 ≡ with_parts top.now.key.seats top.now.key.cells.value (count_up (k + 1) (m + 1)) [])
        × (result.me.0 ≡ with_parts top.now.key.seats top.now.key.cells.value (k ∷ []) []) }
{
    top.split_seat::<Cut>(place)
}

// A seat for each handle, with one part.
fn deal_all(locks: &Handle, place: &mut Place, mut handles: Vec<Handle>, all: &mut Vec<Seat>)
    requires seated { IsSeated (arc_value locks.now).shared.table_id (arc_value locks.now).shared.key place.old }
    requires same { All (λ a. arc_value a ≡ arc_value locks.now) handles.items }
    requires view { place.old.me.0 ≡ with_parts (arc_value locks.now).shared.key.seats
        (arc_value locks.now).shared.key.cells.value (count_up 0 (length handles.items + 1)) [] }
    requires none { all.old.items ≡ [] }
    requires room { length handles.items + 1 ≤ vec_capacity all.old }
    ensures seated { IsSeated (arc_value locks.now).shared.table_id (arc_value locks.now).shared.key place.new }
    ensures view { place.new.me.0 ≡ with_parts (arc_value locks.now).shared.key.seats
        (arc_value locks.now).shared.key.cells.value (length handles.items ∷ []) [] }
    ensures seats { all.new.items
        ≡ seats_from (arc_value locks.now).shared.table_id (arc_value locks.now).shared.key.seats
        (arc_value locks.now).shared.key.cells.value 0 (length handles.items) }
    ensures room { (vec_len all.new ≡ length handles.items) × (vec_capacity all.new ≡ vec_capacity all.old) }
{
    while let Some(handle) = handles.pop() {
        let part = deal(&locks.shared, place);
        all.push_reserved(Seat {
            locks: handle,
            place: part,
        });
    }
}
