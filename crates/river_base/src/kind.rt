// Types of queues.

/// What a queue without packs carries: rows, batches in which each instant of a stream has its rows,
/// or what comes to a relation and what goes, at each instant at which it changes. The number is the
/// width of the rows, 1 to 16 in a valid plan.
#[derive(Clone, Copy, PartialEq, Eq)]
pub enum FlatType {
    Rows(u32),
    Stream(u32),
    Relation(u32),
}

/// What a queue carries: items of a type, or packs of them.
#[derive(Clone, Copy, PartialEq, Eq)]
pub enum QueueType {
    Flat(FlatType),
    Pack(FlatType),
}
