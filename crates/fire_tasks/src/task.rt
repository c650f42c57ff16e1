// A task: what one operator has.
ghost use Rattle.std.specs.Prelude.{◌≡◌, ◌+◌, ◌<◌, ◌≤◌, [], None, length, IfOk, IfSome, IfNone, IsTrue, Some, slice_get, slice_index_or};
ghost use Rattle.river_base.specs.Places.{list_at};
ghost use Rattle.fire_tasks.specs.Ports.{AllReceived, HasRoom, HasSentFront, IsIdle, IsPair, MaySendAll, SentAt, in_ends, known_of, received_in, sent_count};
ghost use Rattle.river_base.specs.WideRows.{rows_type};
ghost use Rattle.fire_tasks.specs.Tasks.{HaveMet, with_in, with_out};

use crate::ports::{meet, send_at, width_at};
use crate::taking::first_ready;
use crate::{Inlet, Outlet};
use brooklet_step::{Emit, Lines, Spare, States};
use river_base::{Item, Listed, NoMemory, QueueType};
use std::alloc::Global;
use std::mem::replace;

/// Where an operator's rows for one of its tables go.
#[derive(Clone, Copy)]
pub struct TablePort {
    /// The number of the table: its place among the tables of the plan.
    pub(crate) table: u32,
    /// The place of the table's lock class among the classes of the task.
    pub(crate) place: usize,
}

impl TablePort {
    /// The rows for this table go to the class at this place among the task's classes.
    pub fn new(table: u32, place: usize) -> TablePort
        ensures { result ≡ record { table = table; place = place } }
    {
        TablePort { table, place }
    }
}

/// What one operator has: the ends of its queues, what its kernel keeps, and what it gave and did not send. What it added to tables
/// stands in the logs of their lock classes.
#[derive(Drop)]
pub struct Task {
    /// The number of the operator.
    pub(crate) op: u32,
    /// Where it takes from, port by port, and the types of these queues.
    pub(crate) ins: Listed<Inlet>,
    pub(crate) kinds: Listed<QueueType>,
    /// What its kernel keeps.
    pub(crate) states: States,
    /// Where it sends to, port by port.
    pub(crate) outs: Listed<Outlet>,
    /// What is pending at each of these ports.
    pub(crate) pending: Lines,
    /// Empty lists for what the next firing gives.
    pub(crate) out: Emit,
    /// Lists that firings used, whose memory is used again.
    pub(crate) spare: Spare,
    /// Its tables, in the order of its kernel.
    pub(crate) tables: Listed<TablePort>,
    /// The lock classes of its tables, each once, in ascending order.
    pub(crate) classes: Listed<u32>,
    /// How often it fired; a count of 2^63 - 1 stays there.
    pub(crate) count: usize,
    /// An item that it received and that its port's queue may not hold, with the port.
    pub(crate) bad: Option<(u32, Item)>,
}

impl Task {
    /// The task of an operator that has not fired: where it takes from, with the types of these queues; where it sends to, with what is
    /// pending there; what its kernel keeps, with lists for what it gives; and its tables, with their lock classes.
    pub fn new(
        alloc: Global,
        op: u32,
        takes: (Listed<Inlet>, Listed<QueueType>),
        sends: (Listed<Outlet>, Lines),
        keeps: (States, Emit),
        homes: (Listed<TablePort>, Listed<u32>),
    ) -> Task
        ensures number { result.op ≡ op }
        ensures takes { (result.ins ≡ takes.0) × (result.kinds ≡ takes.1) }
        ensures sends { (result.outs ≡ sends.0) × (result.pending ≡ sends.1) }
        ensures keeps { (result.states ≡ keeps.0) × (result.out ≡ keeps.1) }
        ensures homes { (result.tables ≡ homes.0) × (result.classes ≡ homes.1) }
        ensures fresh { (result.count ≡ 0) × (result.bad ≡ None) }
    {
        let (ins, kinds) = takes;
        let (outs, pending) = sends;
        let (states, out) = keeps;
        let (tables, classes) = homes;
        Task {
            op,
            ins,
            kinds,
            states,
            outs,
            pending,
            out,
            spare: Spare::new(alloc),
            tables,
            classes,
            count: 0,
            bad: None,
        }
    }

    /// A task without anything, which stands for the task of an operator.
    pub fn empty(alloc: Global, op: u32) -> Task
        ensures { result.op ≡ op }
    {
        Task {
            op,
            ins: Listed::new(alloc),
            kinds: Listed::new(alloc),
            states: Listed::new(alloc),
            outs: Listed::new(alloc),
            pending: Listed::new(alloc),
            out: Emit {
                outs: Listed::new(alloc),
                adds: Listed::new(alloc),
            },
            spare: Spare::new(alloc),
            tables: Listed::new(alloc),
            classes: Listed::new(alloc),
            count: 0,
            bad: None,
        }
    }

    /// The number of the operator.
    pub fn op(&self) -> u32
        ensures { result ≡ self.now.op }
    {
        self.op
    }

    /// How often it fired; a count of 2^63 - 1 stays there.
    pub fn count(&self) -> usize
        ensures { result ≡ self.now.count }
    {
        self.count
    }

    /// How many values the rows have that it takes at a port, 1 to 16; None where it takes no such rows there.
    pub fn width_at(&self, port: usize) -> Option<u32>
        ensures kind { IfSome result (λ width. slice_get self.now.kinds port ≡ Some (rows_type width)) }
        ensures some { IfSome result (λ width. 1 ≤ width) }
        ensures at_most { IfSome result (λ width. width ≤ 16) }
    {
        width_at(&self.kinds, port)
    }

    /// The first port at which an item is pending.
    pub fn first_pending(&self) -> Option<usize>
        ensures some { IfSome result (λ port. (port < length self.now.pending) × (list_at self.now.pending port ≡ [] → ⊥)) }
        ensures none { IfNone result (IsIdle self.now.pending) }
    {
        first_pending(&self.pending)
    }

    /// The first port at which an item is there. It looks at its rings.
    pub fn first_ready(&mut self) -> Option<usize>
        ensures rest { self.new ≡ record self.old { ins = self.new.ins } }
        ensures same { in_ends self.new.ins ≡ in_ends self.old.ins }
        ensures received { received_in self.new.ins ≡ received_in self.old.ins }
        ensures some { IfSome result (λ port. (port < length self.new.ins) × ((d : _) → 0 < length (known_of (slice_index_or self.new.ins port d)))) }
        ensures none { IfNone result (AllReceived self.new.ins) }
        ensures none_before { IfNone result (AllReceived self.old.ins) }
    {
        first_ready(&mut self.ins)
    }

    /// Sends the front of what is pending at a port, where there is room; says whether an item was sent.
    pub fn send_at(&mut self, port: usize) -> Result<bool, NoMemory>
        requires outs { port < length self.old.outs }
        requires pending { port < length self.old.pending }
        requires may { MaySendAll self.old.outs self.old.pending }
        ensures rest { self.new ≡ record self.old { outs = self.new.outs; pending = self.new.pending } }
        ensures sent { IfOk result (SentAt port self.old.outs self.old.pending self.new.outs self.new.pending) }
        ensures one { IfOk result (λ moved. IsTrue moved → sent_count self.new.outs ≡ sent_count self.old.outs + 1) }
        ensures front { IfOk result (λ moved. IsTrue moved → HasSentFront port self.old.outs self.old.pending self.new.outs self.new.pending) }
        ensures goes { (list_at self.old.pending port ≡ [] → ⊥) → ((d : _) → HasRoom (slice_index_or self.old.outs port d)) → IfOk result IsTrue }
    {
        send_at(&mut self.outs, &mut self.pending, port)
    }

    /// Another end stands at a port to which it sends.
    pub fn put_out(&mut self, port: usize, outlet: Outlet)
        requires { port < length self.old.outs }
        ensures { self.new ≡ with_out self.old port outlet }
    {
        drop(replace(self.outs.at_mut(port), outlet));
    }

    /// Another end stands at a port from which it takes.
    pub fn put_in(&mut self, port: usize, inlet: Inlet)
        requires { port < length self.old.ins }
        ensures { self.new ≡ with_in self.old port inlet }
    {
        drop(replace(self.ins.at_mut(port), inlet));
    }

    /// The two ends of a ring look: this task's at one of its ports, and the reader's at one of its own. Afterwards they know of each
    /// other.
    pub fn meet(&mut self, out: usize, reader: &mut Task, port: usize)
        requires out { out < length self.old.outs }
        requires port { port < length reader.old.ins }
        requires pair { (f : _) (i : _) → IsPair (slice_index_or self.old.outs out f) (slice_index_or reader.old.ins port i) }
        ensures { HaveMet out port self.old reader.old self.new reader.new }
    {
        meet(self.outs.at_mut(out), reader.ins.at_mut(port));
    }

    /// The ends to which it sends. It has none afterwards.
    pub fn finish(&mut self, alloc: Global) -> Listed<Outlet>
        ensures { result ≡ self.old.outs }
    {
        replace(&mut self.outs, Listed::new(alloc))
    }
}

// The first port at which an item is pending.
fn first_pending(pending: &Lines) -> Option<usize>
    ensures some { IfSome result (λ port. (port < length pending.now) × (list_at pending.now port ≡ [] → ⊥)) }
    ensures none { IfNone result (IsIdle pending.now) }
{
    for port in 0..pending.len() {
        if !pending.at(port).is_empty() {
            return Some(port);
        }
    }
    None
}
