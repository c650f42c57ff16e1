// What a machine keeps.

use crate::States;
use kern_rows::ItemLine;
use kern_tables::Table;
use river_base::Listed;
use river_plan::Plan;

/// The items that wait in each queue.
pub type Lines = Listed<ItemLine>;

/// Tables, in the order of the plan.
pub type Tables = Listed<Table>;

/// A list of numbers of things in memory.
pub type Sizes = Listed<usize>;

/// What a machine keeps.
#[derive(Drop)]
pub struct MachineState {
    /// The plan that it runs.
    pub plan: Plan,
    /// The items of each queue that are not taken: the outputs, the inputs, the others. Nothing is taken from an output, so it
    /// has its whole history.
    pub queues: Lines,
    /// The tables, with all rows that were added.
    pub tables: Tables,
    /// The states of each operator.
    pub states: Listed<States>,
    /// How often each operator fired; a count of 2^63 - 1 stays there.
    pub counts: Sizes,
    /// Whether a firing was refused.
    pub stopped: bool,
}
