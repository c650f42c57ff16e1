// One firing of a kernel.
ghost use Rattle.std.specs.Prelude.{◌≡◌, ◌<◌, ◌≤◌, ◌∷◌, [], ◌++◌, length, replicate, IfOk, OnOk};
ghost use Rattle.river_base.specs.declared.item.Item.TheVariants as variant;
ghost use Rattle.river_base.specs.declared.item.Item.TheVariants.{Pack};
ghost use Rattle.river_base.specs.declared.item.Flat.TheVariants as flat;
ghost use Rattle.river_base.specs.Held.{flats as flats_in};
ghost use Rattle.river_base.specs.Places.{list_at};
ghost use Rattle.work_code.specs.Term.{term};
ghost use Rattle.river_kernels.specs.Kern.{kern_of, packed, select, cross, fused};
ghost use Rattle.brooklet_model.specs.Firings.{gives};
ghost use Rattle.brooklet_step.specs.declared.emit.Emit.{Emit};
ghost use Rattle.brooklet_step.specs.Took.{IsBlank, Took};
ghost use Rattle.brooklet_step.specs.Joins.{BeginsWithSelection, IsSelection};
ghost use Rattle.brooklet_step.specs.Given.{CanTake, CanTakeAll, CanTakeOn, FiresAt, FiresEach, FiresFront, TookOn};

use crate::counts::{Counts, first_counts};
use crate::emit::{Emit, Spare};
use crate::join::{fire_join, is_join, is_nested_join, kept_pairs};
use crate::leaf::{filter_row, run_row};
use crate::single::{fire_leaf, is_leaf};
use crate::state::{State, States};
use kern_rows::ItemLine;
use river_base::{Flat, Flats, Item, NoMemory, Row};
use river_plan::Kernel;
use std::alloc::Global;
use work_code::Formula;

/// An empty list for each port and table of a kernel.
#[tactic(auto, using(crate::proofs::Counted::outs_told, crate::proofs::Counted::tabs_told))]
pub fn blank_for(alloc: Global, kernel: &Kernel) -> Result<Emit, NoMemory>
    ensures { IfOk result (λ emit. IsBlank (kern_of kernel.now) emit) }
{
    let shape = kernel.shape()?;
    Emit::blank(alloc, shape.outs, shape.tables)
}

// The items that are no packs; none is left in the line.
fn flats_of(alloc: Global, items: &mut ItemLine) -> Result<Flats, NoMemory>
    ensures { IfOk result (λ all. all ≡ flats_in items.old) }
{
    let mut all = Flats::new(alloc);
    while let Some(item) = items.pop() {
        add_flat(item, &mut all)?;
    }
    Ok(all)
}

// An item that is no pack comes to the others.
fn add_flat(item: Item, all: &mut Flats) -> Result<(), NoMemory>
    ensures { OnOk result (all.new ≡ all.old ++ flats_in (item ∷ [])) }
{
    match item {
        Item::Flat(flat) => all.push(flat),
        Item::Pack(_) => Ok(()),
    }
}

/// One firing of a kernel on an item at a port, appended to the lists of `out`. Whatever states of the definition it is that the
/// states stand for, after whatever word of firings from there, and whatever item the queue holds this one for: the lists grow by
/// what queues hold for what the definition gives, and the states stand for that word with this firing. And of the states alone,
/// under each choice of types that they fit: what is given may be held by queues of the output ports' types, rows for tables have
/// their widths, and the states fit again, so that the kernel can fire on any item of its types. Where there is no memory, nothing
/// is said of the states and the lists.
pub fn fire(
    alloc: Global,
    kernel: &Kernel,
    port: u32,
    item: Item,
    states: &mut States,
    out: &mut Emit,
) -> Result<(), NoMemory>
    requires { CanTake (kern_of kernel.now) port item states.old out.old }
    ensures { OnOk result (FiresAt (kern_of kernel.now) port item out.old out.new states.old states.new) }
{
    let mut spare = Spare::new(alloc);
    fire_again(alloc, kernel, port, item, states, out, &mut spare)
}

/// The same, with lists that earlier firings used.
pub(crate) fn fire_again(
    alloc: Global,
    kernel: &Kernel,
    port: u32,
    item: Item,
    states: &mut States,
    out: &mut Emit,
    spare: &mut Spare,
) -> Result<(), NoMemory>
    requires { CanTake (kern_of kernel.now) port item states.old out.old }
    ensures { OnOk result (FiresAt (kern_of kernel.now) port item out.old out.new states.old states.new) }
{
    fire_on(alloc, kernel, port, item, states.as_mut_slice(), out, spare)
}

/// The same, where the item is the row of these 1 to 16 values.
pub(crate) fn fire_row(
    alloc: Global,
    kernel: &Kernel,
    port: u32,
    row: &[i64],
    states: &mut States,
    out: &mut Emit,
    spare: &mut Spare,
) -> Result<(), NoMemory>
    requires some { 1 ≤ length row.now }
    requires at_most { length row.now ≤ 16 }
    requires can { CanTake (kern_of kernel.now) port (variant.Flat (flat.One row.now)) states.old out.old }
    ensures { OnOk result (FiresAt (kern_of kernel.now) port (variant.Flat (flat.One row.now)) out.old out.new states.old states.new) }
{
    fire_row_on(alloc, kernel, port, row, states.as_mut_slice(), out, spare)
}

#[cycle(fire_on)]
fn fire_row_on(
    alloc: Global,
    kernel: &Kernel,
    port: u32,
    row: &[i64],
    states: &mut [State],
    out: &mut Emit,
    spare: &mut Spare,
) -> Result<(), NoMemory>
    requires some { 1 ≤ length row.now }
    requires at_most { length row.now ≤ 16 }
    requires can { CanTake (kern_of kernel.now) port (variant.Flat (flat.One row.now)) states.old out.old }
    ensures { OnOk result (FiresAt (kern_of kernel.now) port (variant.Flat (flat.One row.now)) out.old out.new states.old states.new) }
{
    match kernel {
        Kernel::Code(code) => run_row(alloc, code, row, states, out, spare),
        Kernel::Filter(filter) => filter_row(alloc, filter, row, &mut states[0], out, spare),
        Kernel::Fused { first, second, at } => {
            fire_fused_row(alloc, first, second, *at, port, row, states, out, spare)
        }
        _ => {
            let item = Item::Flat(Flat::One(Row::from_slice(row)));
            fire_on(alloc, kernel, port, item, states, out, spare)
        }
    }
}

#[cycle(fire_on)]
fn fire_on(
    alloc: Global,
    kernel: &Kernel,
    port: u32,
    item: Item,
    states: &mut [State],
    out: &mut Emit,
    spare: &mut Spare,
) -> Result<(), NoMemory>
    requires { CanTake (kern_of kernel.now) port item states.old out.old }
    ensures { OnOk result (FiresAt (kern_of kernel.now) port item out.old out.new states.old states.new) }
{
    if is_leaf(kernel) {
        return fire_leaf(alloc, kernel, port, item, states, out, spare);
    }
    match kernel {
        Kernel::Packed(inner) => fire_packed(alloc, inner, port, item, states, out, spare),
        Kernel::Fused { first, second, at } => {
            if is_join(first, second) {
                return fire_join(alloc, second, *at, port, item, states, out, spare);
            }
            if is_nested_join(first, second) {
                return fire_nested(alloc, second, *at, port, item, states, out, spare);
            }
            fire_fused(alloc, first, second, *at, port, item, states, out, spare)
        }
        _ => unreachable!(),
    }
}

// A firing of a kernel whose items go into a pack.
#[cycle(fire_on)]
fn fire_packed(
    alloc: Global,
    inner: &Kernel,
    port: u32,
    item: Item,
    states: &mut [State],
    out: &mut Emit,
    spare: &mut Spare,
) -> Result<(), NoMemory>
    requires { CanTake (packed (kern_of inner.now)) port item states.old out.old }
    ensures { OnOk result (FiresAt (packed (kern_of inner.now)) port item out.old out.new states.old states.new) }
{
    let mut given = fire_blank(alloc, inner, port, item, states, 1, 0, spare)?;
    give_pack(alloc, &mut given, out)
}

// What a firing of a kernel gives, in lists for so many ports and tables.
#[cycle(fire_on)]
fn fire_blank(
    alloc: Global,
    kernel: &Kernel,
    port: u32,
    item: Item,
    states: &mut [State],
    ports: usize,
    tables: usize,
    spare: &mut Spare,
) -> Result<Emit, NoMemory>
    requires { (blank : Emit) → blank.outs ≡ replicate ports [] → blank.adds ≡ replicate tables [] → CanTake (kern_of kernel.now) port item states.old blank }
    ensures { IfOk result (λ given. (blank : Emit) × (blank.outs ≡ replicate ports []) × (blank.adds ≡ replicate tables [])
        × FiresAt (kern_of kernel.now) port item blank given states.old states.new) }
{
    let mut given = Emit::blank_again(alloc, ports, tables, spare)?;
    fire_on(alloc, kernel, port, item, states, &mut given, spare)?;
    Ok(given)
}

// The same, on the row of these values.
#[cycle(fire_on)]
fn fire_row_blank(
    alloc: Global,
    kernel: &Kernel,
    port: u32,
    row: &[i64],
    states: &mut [State],
    counts: Counts,
    spare: &mut Spare,
) -> Result<Emit, NoMemory>
    requires some { 1 ≤ length row.now }
    requires at_most { length row.now ≤ 16 }
    requires can { (blank : Emit) → blank.outs ≡ replicate counts.outs [] → blank.adds ≡ replicate counts.tables []
        → CanTake (kern_of kernel.now) port (variant.Flat (flat.One row.now)) states.old blank }
    ensures { IfOk result (λ given. (blank : Emit) × (blank.outs ≡ replicate counts.outs []) × (blank.adds ≡ replicate counts.tables [])
        × FiresAt (kern_of kernel.now) port (variant.Flat (flat.One row.now)) blank given states.old states.new) }
{
    let mut given = Emit::blank_again(alloc, counts.outs, counts.tables, spare)?;
    fire_row_on(alloc, kernel, port, row, states, &mut given, spare)?;
    Ok(given)
}

// The items of the first port, as one pack.
fn give_pack(alloc: Global, given: &mut Emit, out: &mut Emit) -> Result<(), NoMemory>
    requires given { 0 < length given.old.outs }
    requires room { 0 < length out.old.outs }
    ensures { OnOk result (Took out.old out.new (gives 0 (Pack (flats_in (list_at given.old.outs 0)) ∷ []) [])) }
{
    let mut line = given.take_port(alloc, 0);
    let pack = flats_of(alloc, &mut line)?;
    out.give(0, Item::Pack(pack))
}

// A firing of a product with two kernels as one behind it, of which the first is a selection.
#[cycle(fire_on)]
fn fire_nested(
    alloc: Global,
    second: &Kernel,
    at: u32,
    port: u32,
    item: Item,
    states: &mut [State],
    out: &mut Emit,
    spare: &mut Spare,
) -> Result<(), NoMemory>
    requires nested { BeginsWithSelection second.now }
    requires can { CanTake (fused cross (kern_of second.now) at) port item states.old out.old }
    ensures { OnOk result (FiresAt (fused cross (kern_of second.now) at) port item out.old out.new states.old states.new) }
{
    match second {
        Kernel::Fused {
            first,
            second: third,
            at: inner,
        } => fire_selected(
            alloc, first, third, *inner, at, port, item, states, out, spare,
        ),
        _ => unreachable!(),
    }
}

// The same, the two kernels apart.
#[cycle(fire_on)]
fn fire_selected(
    alloc: Global,
    second: &Kernel,
    third: &Kernel,
    inner: u32,
    at: u32,
    port: u32,
    item: Item,
    states: &mut [State],
    out: &mut Emit,
    spare: &mut Spare,
) -> Result<(), NoMemory>
    requires selection { IsSelection second.now }
    requires can { CanTake (fused cross (fused (kern_of second.now) (kern_of third.now) inner) at) port item states.old out.old }
    ensures { OnOk result (FiresAt (fused cross (fused (kern_of second.now) (kern_of third.now) inner) at) port item out.old out.new
        states.old states.new) }
{
    match second {
        Kernel::Select(cond) => fire_third(
            alloc, cond, third, inner, at, port, item, states, out, spare,
        ),
        _ => unreachable!(),
    }
}

// The same. The third kernel fires on what the condition keeps of the pairs, and no other pair is made.
#[cycle(fire_on)]
fn fire_third(
    alloc: Global,
    cond: &Formula,
    third: &Kernel,
    inner: u32,
    at: u32,
    port: u32,
    item: Item,
    states: &mut [State],
    out: &mut Emit,
    spare: &mut Spare,
) -> Result<(), NoMemory>
    requires { CanTake (fused cross (fused (select (term cond.now)) (kern_of third.now) inner) at) port item states.old out.old }
    ensures { OnOk result (FiresAt (fused cross (fused (select (term cond.now)) (kern_of third.now) inner) at) port item out.old out.new
        states.old states.new) }
{
    let (mine, rest) = states.split_at_mut(1);
    let mut mid = kept_pairs(alloc, cond, port, item, &mut mine[0], spare)?;
    fire_behind(alloc, third, inner, rest, &mut mid, out, spare)
}

// A firing of two kernels, the second behind port `at` of the first.
#[cycle(fire_on)]
fn fire_fused(
    alloc: Global,
    first: &Kernel,
    second: &Kernel,
    at: u32,
    port: u32,
    item: Item,
    states: &mut [State],
    out: &mut Emit,
    spare: &mut Spare,
) -> Result<(), NoMemory>
    requires { CanTake (fused (kern_of first.now) (kern_of second.now) at) port item states.old out.old }
    ensures { OnOk result (FiresAt (fused (kern_of first.now) (kern_of second.now) at) port item out.old out.new states.old states.new) }
{
    let counts = first_counts(first, second, at, states, out)?;
    let (mine, rest) = states.split_at_mut(counts.privates);
    let mut mid = fire_blank(
        alloc,
        first,
        port,
        item,
        mine,
        counts.outs,
        counts.tables,
        spare,
    )?;
    let fired = fire_behind(alloc, second, at, rest, &mut mid, out, spare);
    spare.put_lines(mid.outs);
    fired
}

// The same, on the row of these values.
#[cycle(fire_on)]
fn fire_fused_row(
    alloc: Global,
    first: &Kernel,
    second: &Kernel,
    at: u32,
    port: u32,
    row: &[i64],
    states: &mut [State],
    out: &mut Emit,
    spare: &mut Spare,
) -> Result<(), NoMemory>
    requires some { 1 ≤ length row.now }
    requires at_most { length row.now ≤ 16 }
    requires can { CanTake (fused (kern_of first.now) (kern_of second.now) at) port (variant.Flat (flat.One row.now)) states.old out.old }
    ensures { OnOk result (FiresAt (fused (kern_of first.now) (kern_of second.now) at) port (variant.Flat (flat.One row.now)) out.old out.new
        states.old states.new) }
{
    let counts = first_counts(first, second, at, states, out)?;
    let (mine, rest) = states.split_at_mut(counts.privates);
    let mut mid = fire_row_blank(alloc, first, port, row, mine, counts, spare)?;
    let fired = fire_behind(alloc, second, at, rest, &mut mid, out, spare);
    spare.put_lines(mid.outs);
    fired
}

// The second of two kernels fires on what the first gave. Where the first has no other port and no table, what it gives goes to
// the lists as they are.
#[cycle(fire_on)]
fn fire_behind(
    alloc: Global,
    second: &Kernel,
    at: u32,
    states: &mut [State],
    mid: &mut Emit,
    out: &mut Emit,
    spare: &mut Spare,
) -> Result<(), NoMemory>
    requires { CanTakeOn (kern_of second.now) at states.old mid.old out.old }
    ensures { OnOk result (TookOn (kern_of second.now) at mid.old out.old out.new states.old states.new) }
{
    if mid.outs.len() == 1 && mid.adds.is_empty() {
        let between = mid.outs.at_mut(at as usize);
        return fire_each(alloc, second, between, states, out, spare);
    }
    fire_second(alloc, second, at, states, mid, out, spare)
}

// The second of two kernels fires on each item that the first gave at port `at`, and what both gave is put together.
#[cycle(fire_on)]
fn fire_second(
    alloc: Global,
    second: &Kernel,
    at: u32,
    states: &mut [State],
    mid: &mut Emit,
    out: &mut Emit,
    spare: &mut Spare,
) -> Result<(), NoMemory>
    requires { CanTakeOn (kern_of second.now) at states.old mid.old out.old }
    ensures { OnOk result (TookOn (kern_of second.now) at mid.old out.old out.new states.old states.new) }
{
    let mut last = blank_for(alloc, second)?;
    let mut between = mid.take_port(alloc, at as usize);
    fire_each(alloc, second, &mut between, states, &mut last, spare)?;
    out.splice(alloc, mid, &mut last, at as usize)
}

// A firing on each of these items, at the first port; none is left in the line.
#[cycle(fire_on)]
fn fire_each(
    alloc: Global,
    kernel: &Kernel,
    items: &mut ItemLine,
    states: &mut [State],
    out: &mut Emit,
    spare: &mut Spare,
) -> Result<(), NoMemory>
    requires { CanTakeAll (kern_of kernel.now) items.old states.old out.old }
    ensures { OnOk result (FiresEach (kern_of kernel.now) items.old out.old out.new states.old states.new) }
{
    'front: while !items.is_empty() {
        fire_front(alloc, kernel, items, states, out, spare)?;
    }
    Ok(())
}

// A firing on the item in front, at the first port. A row that is kept as values is fired on as it lies.
#[cycle(fire_on)]
fn fire_front(
    alloc: Global,
    kernel: &Kernel,
    items: &mut ItemLine,
    states: &mut [State],
    out: &mut Emit,
    spare: &mut Spare,
) -> Result<(), NoMemory>
    requires some { 0 < length items.old }
    requires can { CanTakeAll (kern_of kernel.now) items.old states.old out.old }
    ensures { OnOk result (FiresFront (kern_of kernel.now) items.old items.new out.old out.new states.old states.new) }
{
    if let Some(row) = items.front_values() {
        fire_row_on(alloc, kernel, 0, row, states, out, spare)?;
        items.drop_front();
        return Ok(());
    }
    match items.pop() {
        Some(item) => fire_on(alloc, kernel, 0, item, states, out, spare),
        None => Ok(()),
    }
}
