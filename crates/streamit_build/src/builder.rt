// From streams that are declared to the operators of a plan.
ghost use Rattle.std.specs.Prelude.{suc, codes, ◌≡◌, ◌<◌, ◌≤◌, ◌+◌, ◌∷◌, ◌++◌, [], IfOk, OnOk, length};
ghost use Rattle.kern_rows.specs.Forms.{filter_form};
ghost use Rattle.river_kernels.specs.Kern.{filter};
ghost use Rattle.river_plan.specs.Forms.{op_form, op_forms};
ghost use Rattle.streamit_model.specs.Unrolled.{Stream, Streams};
ghost use Rattle.streamit_model.specs.Plan.{numbered, queue, queues, with_own, joiner, build, ops_in, queues_in};
ghost use Rattle.streamit_build.specs.Units.{splitter_form, declared_forms, AreBelow, AreLower, HaveShortFilters, IsTree, AreTrees, AddsSplitter, Built, BuiltLine, BuiltBranches};

use crate::names::{queue, sum};
use crate::operators::{filter_op, join_op, split_op};
use kern_rows::Filter;
use river_base::{Name, NoMemory};
use river_plan::{Op, Ops};
use std::alloc::Global;

/// A stream that is declared; those that it adds are named by their numbers.
#[derive(Drop)]
pub(crate) enum Declared {
    Filter {
        name: Name,
        filter: Filter,
    },
    /// All but the last, and the last.
    Pipeline {
        front: Vec<u32>,
        last: u32,
    },
    /// The splitter's weights, or none where it copies; the branches but the last, and the last; the joiner's weights.
    SplitJoin {
        split: Option<Vec<u32>>,
        front: Vec<u32>,
        last: u32,
        join: Vec<u32>,
    },
}

/// What was built.
#[derive(Drop)]
pub(crate) struct Made {
    pub ops: Ops,
    pub next_op: u32,
    pub next_queue: u32,
}

// The streams that one has: all but the last, and the last.
#[derive(Clone, Copy)]
struct FrontAndLast<'a> {
    front: &'a [u32],
    last: u32,
}

impl<'a> FrontAndLast<'a> {
    // These streams.
    fn of(front: &'a Vec<u32>, last: u32) -> Self
        ensures front { result.front.now ≡ front.now.items }
        ensures last { result.last ≡ last }
    {
        FrontAndLast {
            front: front.as_slice(),
            last,
        }
    }
}

// The queues of branches: how many branches there are, the first queue to them, and the first from them.
#[derive(Clone, Copy)]
struct Lanes {
    count: u32,
    first: u32,
    second: u32,
}

impl Lanes {
    // Those of one branch more than `front`, from this queue on.
    fn of(front: usize, first: u32) -> Result<Lanes, NoMemory>
        ensures count { IfOk result (λ lanes. lanes.count ≡ suc front) }
        ensures first { IfOk result (λ lanes. lanes.first ≡ first) }
        ensures second { IfOk result (λ lanes. lanes.second ≡ first + suc front) }
    {
        let count = ports(front)?;
        let second = sum(first, count)?;
        Ok(Lanes {
            count,
            first,
            second,
        })
    }
}

impl Made {
    // A queue of its own.
    fn queue(&mut self, alloc: Global) -> Result<Name, NoMemory>
        ensures name { IfOk result (λ name. name ≡ queue self.old.next_queue) }
        ensures next { OnOk result (self.new.next_queue ≡ self.old.next_queue + 1) }
        ensures op { OnOk result (self.new.next_op ≡ self.old.next_op) }
        ensures ops { OnOk result (self.new.ops ≡ self.old.ops) }
    {
        let number = self.next_queue;
        self.next_queue = sum(number, 1)?;
        queue(alloc, number)
    }

    // An operator more.
    fn add(&mut self, op: Op) -> Result<(), NoMemory>
        ensures ops { OnOk result (op_forms self.new.ops ≡ op_forms self.old.ops ++ op_form op ∷ []) }
        ensures next { OnOk result (self.new.next_op ≡ self.old.next_op + 1) }
        ensures queue { self.new.next_queue ≡ self.old.next_queue }
    {
        self.ops.push(op)?;
        self.next_op = sum(self.next_op, 1)?;
        Ok(())
    }

    // The operator of a filter.
    fn filter(
        &mut self,
        alloc: Global,
        name: &Name,
        body: &Filter,
        from: Name,
        to: Name,
    ) -> Result<(), NoMemory>
        requires { length name.now ≤ 40 }
        ensures ops { OnOk result (op_forms self.new.ops
            ≡ op_forms self.old.ops ++ with_own (numbered name.now self.old.next_op) (filter (filter_form body.now)) (from ∷ []) (to ∷ []) ∷ []) }
        ensures next { OnOk result (self.new.next_op ≡ self.old.next_op + 1) }
        ensures queue { self.new.next_queue ≡ self.old.next_queue }
    {
        let op = filter_op(alloc, name, body, self.next_op, from, to)?;
        self.add(op)
    }

    // The operator of a splitter, and the queues to the branches and from them.
    fn split(
        &mut self,
        alloc: Global,
        split: &Option<Vec<u32>>,
        parts: FrontAndLast<'_>,
        from: Name,
    ) -> Result<Lanes, NoMemory>
        ensures count { IfOk result (λ lanes. lanes.count ≡ suc (length parts.entry.front.now)) }
        ensures first { IfOk result (λ lanes. lanes.first ≡ self.old.next_queue) }
        ensures second { IfOk result (λ lanes. lanes.second ≡ self.old.next_queue + suc (length parts.entry.front.now)) }
        ensures ops { OnOk result (AddsSplitter (splitter_form split.now) (suc (length parts.entry.front.now)) from self.old self.new) }
        ensures next { OnOk result (self.new.next_op ≡ self.old.next_op + 1) }
        ensures queue { OnOk result (self.new.next_queue ≡ (self.old.next_queue + suc (length parts.entry.front.now)) + suc (length parts.entry.front.now)) }
    {
        let lanes = Lanes::of(parts.front.len(), self.next_queue)?;
        let op = split_op(alloc, split, lanes.count, self.next_op, from, lanes.first)?;
        self.add(op)?;
        self.next_queue = sum(lanes.second, lanes.count)?;
        Ok(lanes)
    }

    // The operator of a joiner.
    fn join(
        &mut self,
        alloc: Global,
        join: &Vec<u32>,
        lanes: Lanes,
        to: Name,
    ) -> Result<(), NoMemory>
        ensures ops { OnOk result (op_forms self.new.ops
            ≡ op_forms self.old.ops ++ joiner join.now.items (numbered (codes "join") self.old.next_op) (queues lanes.second lanes.count) to ∷ []) }
        ensures next { OnOk result (self.new.next_op ≡ self.old.next_op + 1) }
        ensures queue { self.new.next_queue ≡ self.old.next_queue }
    {
        let op = join_op(alloc, join, lanes.count, self.next_op, lanes.second, to)?;
        self.add(op)
    }
}

/// The operators of stream number i, from one queue to another, behind those that are there.
#[cycle(build)]
pub(crate) fn build(
    alloc: Global,
    units: &[Declared],
    i: usize,
    from: Name,
    to: Name,
    made: &mut Made,
) -> Result<(), NoMemory>
    requires there { i < length units.now }
    requires lower { AreLower (declared_forms units.now) }
    requires named { HaveShortFilters (declared_forms units.now) }
    ensures { (s : Stream) → IsTree (declared_forms units.now) i s
        → OnOk result (Built made.old made.new (build s made.old.next_op made.old.next_queue from to) (ops_in s) (queues_in s)) }
{
    match &units[i] {
        Declared::Filter { name, filter } => made.filter(alloc, name, filter, from, to),
        Declared::Pipeline { front, last } => {
            let parts = FrontAndLast::of(front, *last);
            line(alloc, units, i, parts, from, to, made)
        }
        Declared::SplitJoin {
            split,
            front,
            last,
            join,
        } => {
            let parts = FrontAndLast::of(front, *last);
            let lanes = made.split(alloc, split, parts, from)?;
            branches(alloc, units, i, parts, lanes, made)?;
            made.join(alloc, join, lanes, to)
        }
    }
}

// The operators of streams in a line, which are all below number i.
#[cycle(build)]
fn line(
    alloc: Global,
    units: &[Declared],
    i: usize,
    parts: FrontAndLast<'_>,
    from: Name,
    to: Name,
    made: &mut Made,
) -> Result<(), NoMemory>
    requires there { i < length units.now }
    requires below { AreBelow i parts.front.now parts.last }
    requires lower { AreLower (declared_forms units.now) }
    requires named { HaveShortFilters (declared_forms units.now) }
    ensures { (ss : Streams) → AreTrees (declared_forms units.now) parts.entry.front.now parts.entry.last ss
        → OnOk result (BuiltLine ss from to made.old made.new) }
{
    let mut start = from;
    for child in parts.front {
        let end = made.queue(alloc)?;
        build(alloc, units, *child as usize, start, end, made)?;
        start = end;
    }
    build(alloc, units, parts.last as usize, start, to, made)
}

// The operators of branches, which are all below number i.
#[cycle(build)]
fn branches(
    alloc: Global,
    units: &[Declared],
    i: usize,
    parts: FrontAndLast<'_>,
    lanes: Lanes,
    made: &mut Made,
) -> Result<(), NoMemory>
    requires there { i < length units.now }
    requires below { AreBelow i parts.front.now parts.last }
    requires lower { AreLower (declared_forms units.now) }
    requires named { HaveShortFilters (declared_forms units.now) }
    ensures { (ss : Streams) → AreTrees (declared_forms units.now) parts.entry.front.now parts.entry.last ss
        → OnOk result (BuiltBranches ss lanes.first lanes.second made.old made.new) }
{
    let mut a = lanes.first;
    let mut b = lanes.second;
    for child in parts.front {
        lane(alloc, units, *child as usize, a, b, made)?;
        a = sum(a, 1)?;
        b = sum(b, 1)?;
    }
    lane(alloc, units, parts.last as usize, a, b, made)
}

// The operators of a branch, between the queues with these numbers.
#[cycle(build)]
fn lane(
    alloc: Global,
    units: &[Declared],
    i: usize,
    a: u32,
    b: u32,
    made: &mut Made,
) -> Result<(), NoMemory>
    requires there { i < length units.now }
    requires lower { AreLower (declared_forms units.now) }
    requires named { HaveShortFilters (declared_forms units.now) }
    ensures { (s : Stream) → IsTree (declared_forms units.now) i s
        → OnOk result (Built made.old made.new (build s made.old.next_op made.old.next_queue (queue a) (queue b)) (ops_in s) (queues_in s)) }
{
    let start = queue(alloc, a)?;
    let end = queue(alloc, b)?;
    build(alloc, units, i, start, end, made)
}

// How many branches there are.
fn ports(front: usize) -> Result<u32, NoMemory>
    ensures { IfOk result (λ n. n ≡ suc front) }
{
    match u32::try_from(front) {
        Ok(n) => sum(n, 1),
        Err(_) => Err(NoMemory),
    }
}
