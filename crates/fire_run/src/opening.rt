// The net of a plan.
ghost use Rattle.std.specs.Prelude.{◌≡◌, [], All, IfOk, length};
ghost use Rattle.river_plan.specs.Caps.{IsCap, AreCaps, capacity, first_cap};
ghost use Rattle.river_plan.specs.Valid.{IsPlan};
ghost use Rattle.brooklet_model.specs.Fit.{Fit};
ghost use Rattle.fire_tasks.specs.Tasks.{all_moves};
ghost use Rattle.fire_open.specs.Fresh.{AreFresh};
ghost use Rattle.fire_open.specs.Homes.{AreClassCells};
ghost use Rattle.fire_open.specs.Links.{AreLinks, room_of};
ghost use Rattle.fire_open.specs.Rings.{AreRung};
ghost use Rattle.fire_run.specs.NetOf.{HasNetAt};

use crate::net::Net;
use brooklet_step::Lines;
use class_locks::Cells;
use fire_open::{Link, cells_of, links_of, put_rings, table_classes, tasks_of};
use fire_tasks::Task;
use river_base::{Listed, NoMemory};
use river_plan::{Caps, Plan};
use std::alloc::Global;

impl Net {
    /// The net of a plan whose inputs have these items; nothing moved yet, and the logs are empty. A
    /// queue between two operators holds at most as many items as the first entry with its name says,
    /// and `cap` items where there is none.
    pub fn open(
        alloc: Global,
        plan: &Plan,
        inputs: Lines,
        cap: u32,
        caps: &Caps,
    ) -> Result<Net, NoMemory>
        requires fits { Fit plan.now inputs }
        requires cap { IsCap cap }
        requires caps { AreCaps caps.now }
        ensures valid { IsPlan plan.now }
        ensures net { IfOk result (HasNetAt plan.now inputs (capacity cap (first_cap caps.now))) }
        ensures none { IfOk result (λ net. all_moves net.tasks ≡ 0) }
        ensures empty { IfOk result (λ net. All (λ x. x.log ≡ []) net.cells) }
    {
        let links = links_of(alloc, plan)?;
        let tasks = tasks_with_rings(alloc, plan, inputs, &links, cap, caps)?;
        let cells = empty_cells(alloc, plan)?;
        Ok(Net {
            tasks,
            links,
            cells,
            refused: false,
        })
    }
}

// The first tasks of a plan, with a ring for each of its links.
fn tasks_with_rings(
    alloc: Global,
    plan: &Plan,
    inputs: Lines,
    links: &Listed<Link>,
    cap: u32,
    caps: &Caps,
) -> Result<Listed<Task>, NoMemory>
    requires fits { Fit plan.now inputs }
    requires cap { IsCap cap }
    requires caps { AreCaps caps.now }
    requires valid { IsPlan plan.now }
    requires links { AreLinks plan.now links.now }
    ensures { IfOk result (λ tasks. (fresh : _) × AreFresh plan.now inputs fresh
        × AreRung (room_of plan.now cap (first_cap caps.now)) fresh tasks links.now (length links.now)) }
{
    let mut tasks = tasks_of(alloc, plan, inputs)?;
    put_rings(alloc, plan, &mut tasks, links, cap, caps)?;
    Ok(tasks)
}

// The cells of a plan's lock classes, with empty logs.
fn empty_cells(alloc: Global, plan: &Plan) -> Result<Cells, NoMemory>
    requires { IsPlan plan.now }
    ensures cells { IfOk result (AreClassCells plan.now) }
    ensures empty { IfOk result (All (λ x. x.log ≡ [])) }
{
    let classes = table_classes(alloc, plan)?;
    cells_of(alloc, plan, &classes)
}
