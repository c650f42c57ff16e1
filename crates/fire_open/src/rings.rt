// The rings of a net.
ghost use Rattle.std.specs.Prelude.{◌≡◌, ◌<◌, ◌≤◌, Some, length, IfOk, OnOk, slice_get, slice_index_or, slice_set};
ghost use Rattle.fire_tasks.specs.Ports.{SendsRows, out_end, ring_width};
ghost use Rattle.river_base.specs.WideRows.{rows_type};
ghost use Rattle.river_plan.specs.Caps.{IsCap, AreCaps, IsOwnCap, first_cap, own_of};
ghost use Rattle.river_plan.specs.Forms.{Name};
ghost use Rattle.fire_open.specs.Links.{AreLinks, IsBlankRing, IsLinkOf, Put, room_of};
ghost use Rattle.fire_open.specs.Rings.{AreThere, AreRung};
ghost use Rattle.fire_open.specs.Settling.{with_in, with_out};

use crate::Link;
use fire_tasks::{Inlet, Outlet, Task};
use river_base::{Listed, NoMemory};
use river_plan::{Caps, CapsByName, Plan};
use river_rings::{ring, ring_of_rows};
use std::alloc::Global;

// The two ends of an empty ring for a port of a reader: one of rows, where its queue has rows.
fn ring_for(
    alloc: Global,
    reader: &Task,
    port: usize,
    cap: u32,
) -> Result<(Outlet, Inlet), NoMemory>
    requires { (1 ≤ cap) × (cap ≤ 65536) }
    ensures ring { IfOk result (λ r. IsBlankRing cap r.0 r.1) }
    ensures fits { IfOk result (λ r. SendsRows (out_end r.0) → slice_get reader.now.kinds port ≡ Some (rows_type (ring_width (out_end r.0)))) }
{
    match reader.width_at(port) {
        Some(width) => row_ring(alloc, width, cap),
        None => item_ring(alloc, cap),
    }
}

// Those of a ring of items.
fn item_ring(alloc: Global, cap: u32) -> Result<(Outlet, Inlet), NoMemory>
    requires { (1 ≤ cap) × (cap ≤ 65536) }
    ensures ring { IfOk result (λ r. IsBlankRing cap r.0 r.1) }
    ensures width { IfOk result (λ r. ring_width (out_end r.0) ≡ 0) }
{
    let (feed, take) = ring(alloc, cap)?;
    Ok((Outlet::of_items(feed), Inlet::of_items(take)))
}

// Those of a ring of rows.
fn row_ring(alloc: Global, width: u32, cap: u32) -> Result<(Outlet, Inlet), NoMemory>
    requires width { (1 ≤ width) × (width ≤ 16) }
    requires cap { (1 ≤ cap) × (cap ≤ 65536) }
    ensures ring { IfOk result (λ r. IsBlankRing cap r.0 r.1) }
    ensures width { IfOk result (λ r. ring_width (out_end r.0) ≡ width) }
{
    let (feed, take) = ring_of_rows(alloc, width, cap)?;
    Ok((Outlet::of_rows(feed), Inlet::of_rows(take)))
}

// An empty ring for a link.
fn put_ring(alloc: Global, tasks: &mut Listed<Task>, link: Link, cap: u32) -> Result<(), NoMemory>
    requires cap { (1 ≤ cap) × (cap ≤ 65536) }
    requires order { link.writer < link.reader }
    requires reader { link.reader < length tasks.old }
    requires out { (d : _) → link.out < length (slice_index_or tasks.old link.writer d).outs }
    requires port { (d : _) → link.port < length (slice_index_or tasks.old link.reader d).ins }
    ensures { OnOk result (Put cap tasks.old tasks.new link) }
{
    let (outlet, inlet) = ring_for(alloc, tasks.at(link.reader), link.port, cap)?;
    put_outlet(tasks, link, outlet);
    put_inlet(tasks, link, inlet);
    Ok(())
}

// The end of a ring that the writer of a link has.
fn put_outlet(tasks: &mut Listed<Task>, link: Link, outlet: Outlet)
    requires writer { link.writer < length tasks.old }
    requires out { (d : _) → link.out < length (slice_index_or tasks.old link.writer d).outs }
    ensures { (w : _) × (w ≡ slice_index_or tasks.old link.writer w) × (tasks.new ≡ slice_set tasks.old link.writer (with_out w link.out outlet)) }
{
    let writer = tasks.at_mut(link.writer);
    writer.put_out(link.out, outlet);
}

// The end of a ring that the reader of a link has.
fn put_inlet(tasks: &mut Listed<Task>, link: Link, inlet: Inlet)
    requires reader { link.reader < length tasks.old }
    requires port { (d : _) → link.port < length (slice_index_or tasks.old link.reader d).ins }
    ensures { (r : _) × (r ≡ slice_index_or tasks.old link.reader r) × (tasks.new ≡ slice_set tasks.old link.reader (with_in r link.port inlet)) }
{
    let reader = tasks.at_mut(link.reader);
    reader.put_in(link.port, inlet);
}

/// An empty ring for each link, which holds as many items as its queue has room for: `cap`, where
/// these capacities have none for it.
pub fn put_rings(
    alloc: Global,
    plan: &Plan,
    tasks: &mut Listed<Task>,
    links: &Listed<Link>,
    cap: u32,
    caps: &Caps,
) -> Result<(), NoMemory>
    requires cap { IsCap cap }
    requires caps { AreCaps caps.now }
    requires links { AreLinks plan.now links.now }
    requires there { AreThere tasks.old links.now }
    ensures { OnOk result (AreRung (room_of plan.now cap (first_cap caps.now)) tasks.old tasks.new links.now (length links.now)) }
{
    let own = CapsByName::new(alloc, caps)?;
    put_each(alloc, plan, tasks, links, cap, &own)
}

// The same, with the capacities by name.
fn put_each(
    alloc: Global,
    plan: &Plan,
    tasks: &mut Listed<Task>,
    links: &Listed<Link>,
    cap: u32,
    own: &CapsByName,
) -> Result<(), NoMemory>
    requires cap { IsCap cap }
    requires own { (queue : Name) → IsOwnCap (own_of own.now queue) }
    requires links { AreLinks plan.now links.now }
    requires there { AreThere tasks.old links.now }
    ensures { OnOk result (AreRung (room_of plan.now cap (own_of own.now)) tasks.old tasks.new links.now (length links.now)) }
{
    for place in 0..links.len() {
        let link = *links.at(place);
        let room = room_of(plan, link, cap, own);
        put_ring(alloc, tasks, link, room)?;
    }
    Ok(())
}

// How many items the queue of a link holds at most.
fn room_of(plan: &Plan, link: Link, cap: u32, own: &CapsByName) -> u32
    requires cap { IsCap cap }
    requires own { (queue : Name) → IsOwnCap (own_of own.now queue) }
    requires link { IsLinkOf plan.now link }
    ensures fits { IsCap result }
    ensures room { result ≡ room_of plan.now cap (own_of own.now) link }
{
    let queue = *plan.raw().ops.at(link.writer).writes.at(link.out);
    own.capacity(queue, cap)
}
