//! Nets: a task for each operator of a plan, a ring for each queue between two of them, and a cell for each lock class.
use class_locks::Cells;
use fire_open::Link;
use fire_tasks::Task;
use river_base::Listed;

/// The tasks of a plan, in the order of its operators, the queues between them, and the cells of its lock classes. A net that a call
/// refused may only be dropped.
#[derive(Drop)]
pub struct Net {
    pub(crate) tasks: Listed<Task>,
    pub(crate) links: Listed<Link>,
    pub(crate) cells: Cells,
    pub(crate) refused: bool,
}
