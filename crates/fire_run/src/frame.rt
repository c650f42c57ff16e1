//! What is left of a net that was split.
use crate::net::Net;
use class_locks::Cells;
use fire_open::Link;
use fire_tasks::{Bundle, Task};
use river_base::Listed;
use std::marker::Model;
use std::snapshot::Snapshot;

/// A net without its tasks, its cells and what they hold: an empty task stands at the place of each
/// task, and an empty cell at that of each cell, so that joining takes no memory.
#[derive(Drop)]
pub struct Frame {
    pub(crate) tasks: Listed<Task>,
    pub(crate) links: Listed<Link>,
    pub(crate) cells: Cells,
    pub(crate) workers: u32,
    pub(crate) net: Snapshot<Net>,
}

/// The bundles of a frame, in the order of their parts.
pub type Bundles = Vec<Bundle>;

impl Model for Frame {
    ghost use Rattle.std.specs.Prelude.{◌≡◌, length};
    ghost use Rattle.fire_run.specs.Frames.{Framed};

    ghost Value = { Framed };

    ghost view = { λ f. record { net = f.net.value; workers = f.workers } };

    ghost invariant = { λ f. (length f.tasks ≡ length f.net.value.tasks) × (f.links ≡ f.net.value.links) × (length f.cells ≡ length f.net.value.cells) };
}
