//! Nets before anything moves: a task for each operator, the links between their ports, the rings of the links, and the cells.
#![tactic(auto)]

mod cells;
mod homes;
mod links;
mod rings;
mod settling;
mod tasks;

pub use cells::cells_of;
pub use homes::{TableNumbers, table_classes};
pub use links::links_of;
pub use rings::put_rings;
pub use settling::{Link, settle_all};
pub use tasks::{blank_lines, tasks_of};
