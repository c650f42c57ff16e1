// The tasks of one worker, at their seat.
ghost use Rattle.std.specs.Prelude.{◌≡◌, ◌<◌, ◌↔◌, [], IfOk, OnOk, OnErr, IsTrue, IsFalse, true, false};
ghost use Rattle.river_plan.specs.Forms.{plan_form};
ghost use Rattle.river_plan.specs.Valid.{IsPlan};
ghost use Rattle.fire_tasks.specs.Bundles.{IsBundle, AreTasksAt, AreStuck, AllDone, AllLooked, IsReady, SameSeat, HasGone, HasMadeRound, HasSwept, HaveLooked};
ghost use Rattle.fire_tasks.specs.Tasks.{IsDone};
ghost use Rattle.fire_tasks.specs.Turns.{StillSits, LooksSame};

use crate::Task;
use crate::passing::{is_idle, pass_task};
use crate::taking::first_ready;
use class_locks::{Room, Seat};
use river_base::{Gate, Listed, NoMemory};
use river_plan::RawPlan;
use std::alloc::Global;
use std::mem::replace;
use std::sync::atomic::AtomicU64;
use std::sync::atomic::Ordering::SeqCst;
use std::thread::yield_now;

/// The most passes of a bundle in a round.
const MOST_PASSES: u32 = 1024;

/// How often a pass goes over its tasks, at most, for as long as something moves.
const SWEEPS: u32 = 1024;

/// What a worker takes from the count of those that have not ended their round when it begins.
pub const BEGUN: u64 = 0x1_0000_0000;

/// What the count is at least where the workers of a round are in each other's way.
pub const CROWDED: u64 = 0x1_0000_0000_0000;

/// How often a worker reads the count between two looks, at most.
const TURNS: u32 = 256;

/// Between how many of its looks, the last, a worker lets other threads have its processor.
const YIELDS: u32 = 4;

/// The tasks of one worker, with the worker's seat at the locks. It is seen without its plan, so that it is fit for threads.
#[derive(Drop)]
pub struct Bundle {
    alloc: Global,
    tasks: Listed<Task>,
    seat: Seat,
    /// Room for the cells of a task's classes.
    room: Room,
    /// How often a pass looks at its tasks, at most, for something that moves.
    looks: u32,
    /// Whether a pass of the last round moved something.
    moved: bool,
    /// Whether a pass was refused.
    refused: bool,
}

// A look at these tasks, one after another: each moves what it can.
fn sweep<G: Gate>(
    alloc: Global,
    plan: &RawPlan,
    tasks: &mut Listed<Task>,
    seat: &mut Seat,
    room: &mut Room,
    gate: &G,
) -> Result<bool, NoMemory>
    requires valid { IsPlan (plan_form plan.now) }
    requires tasks { AreTasksAt (plan_form plan.now) seat.old.view tasks.old }
    requires rests { seat.old.view.held ≡ [] }
    ensures lot { seat.new.lot ≡ seat.old.lot }
    ensures sits { StillSits seat.old.view seat.new.view }
    ensures swept { IfOk result (HasSwept (plan_form plan.now) seat.old.view seat.new.view tasks.old tasks.new) }
{
    let mut moved = false;
    for place in 0..tasks.len() {
        if pass_task(alloc, plan, tasks.at_mut(place), seat, room, gate)? {
            moved = true;
        }
    }
    Ok(moved)
}

// Whether no more looks are of use: every other worker ended its round, or they are in each other's way.
fn is_over(busy: &AtomicU64) -> bool {
    let count = busy.load(SeqCst);
    count <= 1 || count >= CROWDED
}

// Whether a worker that has so many looks left need not look any more. Between two looks it keeps its processor, and reads the count
// for a while; only between its last looks other threads may have the processor.
fn is_over_then(busy: &AtomicU64, left: u32) -> bool {
    if is_over(busy) {
        return true;
    }
    if left <= YIELDS {
        yield_now();
        return false;
    }
    for _turn in 0..TURNS {
        if is_over(busy) {
            return true;
        }
    }
    false
}

// Counts workers as in each other's way where one finds something to do between its last looks: many looks were in vain, and as soon
// as other threads had its processor one was not.
fn tell_crowded(busy: &AtomicU64, left: u32) {
    if left < YIELDS {
        busy.fetch_add(CROWDED, SeqCst);
    }
}

// A look at these tasks; where nothing moves it looks again, at most so often, since other workers send and take meanwhile. It stops
// where that is of no use: `busy` counts the workers that have not ended their round, in its upper half those that have not begun, and
// above these how often they were in each other's way. No contract speaks of it.
fn look_on<G: Gate>(
    alloc: Global,
    plan: &RawPlan,
    tasks: &mut Listed<Task>,
    looks: u32,
    seat: &mut Seat,
    room: &mut Room,
    gate: &G,
    busy: &AtomicU64,
) -> Result<bool, NoMemory>
    requires valid { IsPlan (plan_form plan.now) }
    requires tasks { AreTasksAt (plan_form plan.now) seat.old.view tasks.old }
    requires rests { seat.old.view.held ≡ [] }
    ensures lot { seat.new.lot ≡ seat.old.lot }
    ensures sits { StillSits seat.old.view seat.new.view }
    ensures swept { IfOk result (HasSwept (plan_form plan.now) seat.old.view seat.new.view tasks.old tasks.new) }
{
    for look in 1..looks {
        let left = looks - look;
        if sweep(alloc, plan, tasks, seat, room, gate)? {
            tell_crowded(busy, left);
            return Ok(true);
        }
        if is_over_then(busy, left) {
            return sweep(alloc, plan, tasks, seat, room, gate);
        }
    }
    sweep(alloc, plan, tasks, seat, room, gate)
}

// A look at these tasks, and where nothing moves more looks.
fn look_first<G: Gate>(
    alloc: Global,
    plan: &RawPlan,
    tasks: &mut Listed<Task>,
    looks: u32,
    seat: &mut Seat,
    room: &mut Room,
    gate: &G,
    busy: &AtomicU64,
) -> Result<bool, NoMemory>
    requires valid { IsPlan (plan_form plan.now) }
    requires tasks { AreTasksAt (plan_form plan.now) seat.old.view tasks.old }
    requires rests { seat.old.view.held ≡ [] }
    ensures lot { seat.new.lot ≡ seat.old.lot }
    ensures sits { StillSits seat.old.view seat.new.view }
    ensures swept { IfOk result (HasSwept (plan_form plan.now) seat.old.view seat.new.view tasks.old tasks.new) }
{
    if sweep(alloc, plan, tasks, seat, room, gate)? {
        return Ok(true);
    }
    look_on(alloc, plan, tasks, looks, seat, room, gate, busy)
}

// A pass over these tasks: looks, for as long as something moves, at most so many.
fn pass_all<G: Gate>(
    alloc: Global,
    plan: &RawPlan,
    tasks: &mut Listed<Task>,
    looks: u32,
    seat: &mut Seat,
    room: &mut Room,
    gate: &G,
    busy: &AtomicU64,
) -> Result<bool, NoMemory>
    requires valid { IsPlan (plan_form plan.now) }
    requires tasks { AreTasksAt (plan_form plan.now) seat.old.view tasks.old }
    requires rests { seat.old.view.held ≡ [] }
    ensures lot { seat.new.lot ≡ seat.old.lot }
    ensures sits { StillSits seat.old.view seat.new.view }
    ensures swept { IfOk result (HasSwept (plan_form plan.now) seat.old.view seat.new.view tasks.old tasks.new) }
{
    if !look_first(alloc, plan, tasks, looks, seat, room, gate, busy)? {
        return Ok(false);
    }
    for _more in 1..SWEEPS {
        if !look_first(alloc, plan, tasks, looks, seat, room, gate, busy)? {
            return Ok(true);
        }
    }
    Ok(true)
}

// Whether a task has nothing pending and received every item known to be there. It looks at its rings.
fn is_done(task: &mut Task) -> bool
    ensures same { LooksSame task.old task.new }
    ensures done { IsTrue result ↔ IsDone task.new }
{
    match first_ready(&mut task.ins) {
        Some(_) => false,
        None => is_idle(&task.pending),
    }
}

// Whether all tasks are done. It looks at their rings.
#[tactic(auto, using(crate::proofs::BundleLemmas::looked_none))]
fn all_done(tasks: &mut Listed<Task>) -> bool
    ensures same { AllLooked tasks.old tasks.new }
    ensures idle { IsTrue result ↔ AllDone tasks.new }
{
    for place in 0..tasks.len() {
        if !is_done(tasks.at_mut(place)) {
            return false;
        }
    }
    true
}

// The most classes that one of these tasks has.
fn most_classes(tasks: &Listed<Task>) -> usize {
    let mut most = 0;
    for task in tasks.as_slice() {
        most = most.max(task.classes.len());
    }
    most
}

impl Bundle {
    /// The bundle of these tasks at this seat, with room for the cells of each task's classes. A pass of it looks at its tasks at most
    /// so often.
    pub fn new(
        alloc: Global,
        tasks: Listed<Task>,
        seat: Seat,
        looks: u32,
    ) -> Result<Bundle, NoMemory>
        ensures parts { IfOk result (λ b. (b.tasks ≡ tasks) × (b.seat ≡ seat) × (b.looks ≡ looks)) }
        ensures fresh { IfOk result (λ b. (b.moved ≡ false) × (b.refused ≡ false)) }
    {
        let room = Room::new(alloc, most_classes(&tasks))?;
        Ok(Bundle {
            alloc,
            tasks,
            seat,
            room,
            looks,
            moved: false,
            refused: false,
        })
    }

    /// A pass over the tasks: each sends what its rings take, then takes items under the locks of its classes and fires on them. It
    /// says whether anything moved; where nothing did, each task tells why. `plan` is the plan of the bundle's frame, by its lists. It
    /// does not wait. Where memory is wanting, every class that was held is put back, and the bundle counts as refused.
    pub fn pass<G: Gate>(&mut self, plan: &RawPlan, gate: &G) -> Result<bool, NoMemory>
        requires valid { IsPlan (plan_form plan.now) }
        requires bundle { IsBundle (plan_form plan.now) self.old }
        requires calm { self.old.refused ≡ false }
        ensures bundle { IsBundle (plan_form plan.now) self.new }
        ensures seat { SameSeat self.old self.new }
        ensures told { self.new.moved ≡ self.old.moved }
        ensures gone { IfOk result (HasGone self.old self.new) }
        ensures stuck { IfOk result (λ moved. IsFalse moved → AreStuck self.old.seat.view self.new.seat.view self.new.tasks) }
        ensures calm { OnOk result (self.new.refused ≡ false) }
        ensures refused { OnErr result (self.new.refused ≡ true) }
    {
        self.pass_among(plan, gate, &AtomicU64::new(1))
    }

    /// The same, in a round of several bundles: `busy` counts those that have not ended it, as `BEGUN` and `CROWDED` say.
    pub fn pass_among<G: Gate>(
        &mut self,
        plan: &RawPlan,
        gate: &G,
        busy: &AtomicU64,
    ) -> Result<bool, NoMemory>
        requires valid { IsPlan (plan_form plan.now) }
        requires bundle { IsBundle (plan_form plan.now) self.old }
        requires calm { self.old.refused ≡ false }
        ensures bundle { IsBundle (plan_form plan.now) self.new }
        ensures seat { SameSeat self.old self.new }
        ensures told { self.new.moved ≡ self.old.moved }
        ensures gone { IfOk result (HasGone self.old self.new) }
        ensures stuck { IfOk result (λ moved. IsFalse moved → AreStuck self.old.seat.view self.new.seat.view self.new.tasks) }
        ensures calm { OnOk result (self.new.refused ≡ false) }
        ensures refused { OnErr result (self.new.refused ≡ true) }
    {
        self.refused = true;
        let moved = pass_all(
            self.alloc,
            plan,
            &mut self.tasks,
            self.looks,
            &mut self.seat,
            &mut self.room,
            gate,
            busy,
        )?;
        self.refused = false;
        Ok(moved)
    }

    /// Whether no task has a pending item and each received every item known to be sent to it. It looks at the rings and moves nothing;
    /// it takes no memory.
    pub fn idle(&mut self) -> bool
        ensures same { HaveLooked self.old self.new }
        ensures idle { IsTrue result ↔ AllDone self.new.tasks }
    {
        all_done(&mut self.tasks)
    }
    /// The tasks, in order.
    pub fn tasks(&self) -> &Listed<Task>
        ensures { result.now ≡ self.now.tasks }
    {
        &self.tasks
    }

    /// Whether a pass of the last round moved something.
    pub fn has_moved(&self) -> bool
        ensures { result ≡ self.now.moved }
    {
        self.moved
    }

    /// Whether a pass was refused.
    pub fn is_refused(&self) -> bool
        ensures { result ≡ self.now.refused }
    {
        self.refused
    }

    /// From now on a pass looks at the tasks at most so often.
    pub fn set_looks(&mut self, looks: u32)
        ensures { self.new ≡ record self.old { looks = looks } }
    {
        self.looks = looks;
    }

    /// The tasks. The bundle has none afterwards.
    pub fn take_tasks(&mut self) -> Listed<Task>
        ensures tasks { result ≡ self.old.tasks }
        ensures rest { self.new ≡ record self.old { tasks = [] } }
    {
        replace(&mut self.tasks, Listed::new(self.alloc))
    }

    /// The seat. What else the bundle has is dropped.
    pub fn into_seat(self) -> Seat
        ensures { result ≡ self.seat }
    {
        self.seat
    }
}

/// Passes, until one moves nothing.
pub(crate) fn make_passes<G: Gate>(plan: &RawPlan, bundle: &mut Bundle, gate: &G, busy: &AtomicU64)
    requires { IsReady plan.now bundle.old }
    ensures { HasMadeRound plan.now bundle.old bundle.new }
{
    bundle.moved = false;
    if bundle.refused {
        return;
    }
    for _pass in 0..MOST_PASSES {
        let Ok(moved) = bundle.pass_among(plan, gate, busy) else {
            return;
        };
        if !moved {
            return;
        }
        bundle.moved = true;
    }
}
