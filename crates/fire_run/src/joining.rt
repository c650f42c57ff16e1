// The bundles of a frame come together again.
ghost use Rattle.std.specs.Prelude.{◌≡◌, ◌<◌, All, length, slice_set};
ghost use Rattle.river_plan.specs.Forms.{PlanForm};
ghost use Rattle.fire_tasks.specs.Tasks.{all_ends, all_moves};
ghost use Rattle.fire_run.specs.Frames.{AreBundlesOf, AreSeatedIn, AreTasksOf, HaveGrownBy, bundle_moves};
ghost use Rattle.fire_run.specs.NetOf.{Stays};
ghost use Rattle.fire_run.specs.Shares.{AreAtRest, AreWithin, merged_view, put_bundles, put_each, seats_of};

use crate::frame::{Bundles, Frame};
use crate::net::Net;
use class_locks::{Seat, close};
use fire_open::settle_all;
use fire_tasks::Task;
use river_base::Listed;
use std::mem::replace;

// Puts tasks at the places of their operators.
fn put_back(tasks: &mut Listed<Task>, mut own: Listed<Task>)
    requires { AreWithin (length tasks.old) own }
    ensures { tasks.new ≡ put_each own tasks.old }
{
    while let Some(task) = own.pop() {
        put_task(tasks, task);
    }
}

// Puts a task at the place of its operator.
fn put_task(tasks: &mut Listed<Task>, task: Task)
    requires { task.op < length tasks.old }
    ensures { tasks.new ≡ slice_set tasks.old task.op task }
{
    let place = task.op() as usize;
    drop(replace(tasks.at_mut(place), task));
}

// Puts the tasks of all bundles at their places.
fn gather(tasks: &mut Listed<Task>, bundles: &mut Bundles)
    requires { All (λ b. AreWithin (length tasks.old) b.tasks) bundles.old.items }
    ensures tasks { tasks.new ≡ put_bundles bundles.old.items tasks.old }
    ensures seats { seats_of bundles.new.items ≡ seats_of bundles.old.items }
{
    for place in 0..bundles.len() {
        put_back(tasks, bundles[place].take_tasks());
    }
}

// The last of the seats takes over the others.
fn one_seat(mut bundles: Bundles) -> Seat
    requires { AreAtRest (seats_of bundles.items) }
    ensures { result.view ≡ merged_view (seats_of bundles.items) }
{
    let Some(last) = bundles.pop() else {
        unreachable!();
    };
    let mut seat = last.into_seat();
    while let Some(bundle) = bundles.pop() {
        let own = bundle.into_seat();
        seat.join(own);
    }
    seat
}

impl Frame {
    /// Joins the bundles of this frame, none of which was refused, to the net that they are: the tasks and the rings as the bundles left
    /// them, and the cells with all that was put. Afterwards both ends of each ring know of each other. It takes no memory.
    pub fn join(self, bundles: Bundles) -> Net
        requires { (p : PlanForm) × AreBundlesOf p self bundles.items }
        ensures stays { (p : PlanForm) → AreBundlesOf p self bundles.items → Stays p self.net result }
        ensures ends { all_ends result.tasks ≡ all_ends self.net.tasks }
        ensures tasks { AreTasksOf bundles.items result.tasks }
        ensures moves { all_moves result.tasks ≡ bundle_moves bundles.items }
        ensures logs { HaveGrownBy bundles.items self.net.cells result.cells }
    {
        let Frame {
            mut tasks,
            links,
            mut cells,
            workers: _,
            net: _,
        } = self;
        let mut bundles = bundles;
        gather(&mut tasks, &mut bundles);
        let seat = one_seat(bundles);
        close(seat, &mut cells);
        settle_all(&mut tasks, &links);
        Net {
            tasks,
            links,
            cells,
            refused: false,
        }
    }

    /// Closes the round of bundles of this frame, whether they were refused or not, and drops all.
    pub fn scrap(self, bundles: Bundles)
        requires { AreSeatedIn self bundles.items }
    {
        let Frame {
            tasks: _,
            links: _,
            mut cells,
            workers: _,
            net: _,
        } = self;
        let seat = one_seat(bundles);
        close(seat, &mut cells);
    }
}
