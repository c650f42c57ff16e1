// Programs with parameters as they are written.
ghost use Rattle.std.specs.Prelude.{◌≤◌, length};

use river_base::Name;
use streamit_text::{Block, Expr, Until};

/// A program as it is written: streams that are declared one after another, with whole numbers as
/// parameters. The last of them, which has none, is run.
#[derive(Drop)]
pub struct ParamProgram {
    pub units: Vec<Unit>,
}

/// A unit of a program: a stream that is declared, with its parameters. Its name has at most 32
/// bytes.
#[derive(Drop)]
pub struct Unit {
    pub name: Name,
    pub params: Vec<Name>,
    pub body: ParamBody,
    ghost short: { length name ≤ 32 },
}

/// What is declared.
#[derive(Drop)]
pub enum ParamBody {
    Filter(ParamFilter),
    Pipeline(Steps),
    SplitJoin(ParamSplitJoin),
}

/// A filter as it is written: its fields, `init`, `prework` for its first firing, and `work`.
#[derive(Drop)]
pub struct ParamFilter {
    pub fields: Vec<Name>,
    pub init: Option<Block>,
    pub prework: Option<ParamWork>,
    pub work: ParamWork,
}

/// `work` or `prework` as it is written: its rates and its block.
#[derive(Drop)]
pub struct ParamWork {
    pub rates: ParamRates,
    pub block: Block,
}

/// The rates that are written, each of them once at most.
#[derive(Drop)]
pub struct ParamRates {
    pub push: Option<Expr>,
    pub pop: Option<Expr>,
    pub peek: Option<Expr>,
}

/// A step of a pipeline or a split-join.
#[derive(Drop)]
#[cycle(steps)]
pub enum Step {
    /// `add NAME(e, e);`
    Add {
        name: Name,
        args: Vec<Expr>,
    },
    /// `for (int NAME = e; NAME < e; NAME++) { .. }`, or with `<=`.
    Loop {
        name: Name,
        low: Expr,
        until: Until,
        high: Expr,
        steps: Steps,
    },
}

/// A list of steps.
#[derive(Drop)]
#[cycle(steps)]
pub struct Steps {
    pub items: Vec<Step>,
}

/// The splitter, the steps, and the joiner.
#[derive(Drop)]
pub struct ParamSplitJoin {
    pub split: ParamSplit,
    pub steps: Steps,
    pub join: Rounds,
}

/// How a splitter is written.
#[derive(Drop)]
pub enum ParamSplit {
    Duplicate,
    RoundRobin(Rounds),
}

/// `roundrobin`, and the weights in its brackets, where there are brackets.
#[derive(Drop)]
pub struct Rounds {
    pub weights: Option<Vec<Expr>>,
}
