// Types of ports and variables.

use river_base::{Listed, QueueType};

/// What a variable of an operator is: private to it, or a table of rows of a width.
#[derive(Clone, Copy, PartialEq, Eq)]
pub enum VarKind {
    Private,
    Table(u64),
}

/// The types of a kernel's output ports, and its variables in the order of its parts.
#[derive(Drop)]
pub struct Types {
    pub outs: Listed<QueueType>,
    pub vars: Listed<VarKind>,
}
