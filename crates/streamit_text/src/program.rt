// Programs as they are written.
ghost use Rattle.std.specs.Prelude.{◌≤◌, length};

use crate::FilterTree;
use river_base::Name;

/// A program as it is written: streams that are declared one after another, of which the last is run
/// (the StreamIt language of Thies, Karczmarek and Amarasinghe).
#[derive(Drop)]
pub struct StreamitProgram {
    pub units: Vec<Unit>,
}

/// A unit of a program: a stream that is declared. Its name has at most 40 bytes.
#[derive(Drop)]
pub struct Unit {
    pub name: Name,
    pub body: Body,
    ghost short: { length name ≤ 40 },
}

/// What is declared.
#[derive(Drop)]
pub enum Body {
    Filter(FilterTree),
    Pipeline(Adds),
    SplitJoin(SplitJoin),
}

/// `add NAME;`, once or more.
#[derive(Drop)]
pub struct Adds {
    pub first: Name,
    pub others: Vec<Name>,
}

/// The splitter, the branches, and the joiner.
#[derive(Drop)]
pub struct SplitJoin {
    pub split: Split,
    pub adds: Adds,
    pub join: RoundRobin,
}

/// How a splitter is written.
#[derive(Drop)]
pub enum Split {
    Duplicate,
    RoundRobin(RoundRobin),
}

/// `roundrobin`, and the weights in its brackets, where there are brackets.
#[derive(Drop)]
pub struct RoundRobin {
    pub weights: Option<Vec<u64>>,
}
