// What a finished net gave.
ghost use Rattle.std.specs.Prelude.{◌≡◌, ◌+◌, ◌^◌, ◌<◌, ◌≤◌, pos, All, length, map, IfOk};
ghost use Rattle.river_plan.specs.Valid.{IsPlan};
ghost use Rattle.brooklet_model.specs.Histories.{History};
ghost use Rattle.fire_tasks.specs.Ports.{sent_of};
ghost use Rattle.fire_tasks.specs.Tasks.{all_moves};
ghost use Rattle.fire_tasks.specs.Layout.{IsStored};
ghost use Rattle.fire_run.specs.Closed.{AreLogsIn, AreOuts, HasOuts, HaveOuts, OutsGo, IsRanOf};
ghost use Rattle.fire_run.specs.NetOf.{HasNet, IsNetOf, AreIdle};

use crate::net::Net;
use crate::sorting::kept_in;
use brooklet_step::{Lines, Outcome};
use class_locks::LogEntry;
use fire_open::blank_lines;
use fire_tasks::{Outlet, Task};
use kern_rows::ItemLine;
use river_base::{Listed, NoMemory, Numbers};
use river_plan::Plan;
use std::alloc::Global;
use std::snapshot::Snapshot;

/// A log for each lock class, in the order of the classes: what was added to its tables, in order.
pub type Logs = Listed<Vec<LogEntry>>;

/// What a run of a plan gave: its outcome, the logs of the lock classes, and in how many rounds it
/// came to its end. Contracts also see the net that was closed.
#[derive(Drop)]
pub struct Ran {
    outcome: Outcome,
    logs: Logs,
    rounds: u64,
    net: Snapshot<Net>,
}

impl Ran {
    /// The histories of the outputs, the tables and the counts of the firings; takes no memory.
    pub fn outcome(&self) -> &Outcome
        ensures { result.now ≡ self.now.outcome }
    {
        &self.outcome
    }

    /// The logs of the lock classes; takes no memory.
    pub fn logs(&self) -> &Logs
        ensures { result.now ≡ self.now.logs }
    {
        &self.logs
    }

    /// The number of rounds.
    pub fn rounds(&self) -> u64
        ensures { result ≡ self.now.rounds }
    {
        self.rounds
    }
}

// What was kept at an end that nobody reads; nothing is left there.
fn take_kept(alloc: Global, outlet: &mut Outlet) -> ItemLine
    requires { IsStored outlet.old }
    ensures { result ≡ sent_of outlet.old }
{
    outlet.take_line(alloc)
}

// The lines of the outputs that an operator writes.
fn take_outs(alloc: Global, plan: &Plan, op: usize, outs: &mut Listed<Outlet>, lines: &mut Lines)
    requires valid { IsPlan plan.now }
    requires there { op < length plan.now.ops }
    requires some { OutsGo plan.now op outs.old lines.old }
    ensures { (h : History) → AreOuts plan.now h op 0 lines.old → HasOuts plan.now h op 0 outs.old → AreOuts plan.now h (op + 1) 0 lines.new }
{
    let places = plan.writes_of(op);
    for port in 0..places.len() {
        if places[port] < lines.len() {
            *lines.at_mut(places[port]) = take_kept(alloc, outs.at_mut(port));
        }
    }
}

// The lines of all outputs.
fn all_outs(alloc: Global, plan: &Plan, tasks: &mut Listed<Task>) -> Result<Lines, NoMemory>
    requires valid { IsPlan plan.now }
    requires some { (h : History) × HaveOuts plan.now h 0 tasks.old }
    ensures { (h : History) → HaveOuts plan.now h 0 tasks.old → IfOk result (AreOuts plan.now h (length plan.now.ops) 0) }
{
    let mut lines = blank_lines(alloc, plan.raw().outputs.len())?;
    for op in 0..tasks.len() {
        let mut outs = tasks.at_mut(op).finish(alloc);
        take_outs(alloc, plan, op, &mut outs, &mut lines);
    }
    Ok(lines)
}

// How often each operator fired, as values.
#[tactic(auto, using(work_code::proofs::Lists::copies))]
fn counts_of(alloc: Global, tasks: &Listed<Task>) -> Result<Numbers, NoMemory>
    requires { All (λ t. t.count < 2 ^ 63) tasks.now }
    ensures { IfOk result (λ counts. counts ≡ map (λ t. pos t.count) tasks.now) }
{
    let mut counts = Numbers::new(alloc);
    for task in tasks.as_slice() {
        counts.push(task.count() as i64)?;
    }
    Ok(counts)
}

// The lines of the outputs, and how often each operator fired.
fn given_by(
    alloc: Global,
    plan: &Plan,
    mut tasks: Listed<Task>,
) -> Result<(Lines, Numbers), NoMemory>
    requires valid { IsPlan plan.now }
    requires few { All (λ t. t.count < 2 ^ 63) tasks }
    requires some { (h : History) × HaveOuts plan.now h 0 tasks }
    ensures outs { (h : History) → HaveOuts plan.now h 0 tasks → IfOk result (λ both. AreOuts plan.now h (length plan.now.ops) 0 both.0) }
    ensures counts { IfOk result (λ both. both.1 ≡ map (λ t. pos t.count) tasks) }
{
    let counts = counts_of(alloc, &tasks)?;
    let lines = all_outs(alloc, plan, &mut tasks)?;
    Ok((lines, counts))
}

impl Net {
    /// What the net gave, once no operator has a pending or an untaken item: the outcome is what
    /// the plan means, and the logs tell where the rows of its tables come from. `rounds` is at most
    /// 1 more than the moves that were made.
    pub fn close(self, alloc: Global, plan: &Plan, rounds: u64) -> Result<Ran, NoMemory>
        requires net { HasNet plan.now self }
        requires idle { AreIdle self.tasks }
        requires rounds { rounds ≤ 1 + all_moves self.tasks }
        ensures ran { (inputs : _) (caps : _) → IsNetOf plan.now inputs caps self → IfOk result (IsRanOf plan.now inputs) }
        ensures rounds { IfOk result (λ ran. ran.rounds ≡ rounds) }
        ensures net { IfOk result (λ ran. ran.net.value ≡ self) }
        ensures logs { IfOk result (λ ran. AreLogsIn self.cells ran.logs) }
    {
        let net = Snapshot::of(&self);
        let Net {
            tasks,
            links: _,
            cells,
            refused: _,
        } = self;
        let (tables, logs) = kept_in(alloc, plan, cells)?;
        let (outs, counts) = given_by(alloc, plan, tasks)?;
        Ok(Ran {
            outcome: Outcome {
                outs,
                tables,
                counts,
            },
            logs,
            rounds,
            net,
        })
    }
}
