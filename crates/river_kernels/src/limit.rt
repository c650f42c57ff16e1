// What is limited in kernels and plans.

/// What is limited in a plan.
#[derive(Clone, Copy)]
pub enum Limit {
    /// The inputs of the plan: 8.
    Inputs,
    /// The operators: 256.
    Operators,
    /// The queues of all kinds: 512.
    Queues,
    /// The variables, private ones and tables: 256.
    Variables,
    /// The queues that one operator reads, and those that it writes: 64.
    Ports,
    /// The statements of one body, those of both arms counted: 16,384.
    Statements,
    /// The slots of one body: 256.
    Slots,
    /// Each rate of a filter, and of its first run: 65,536.
    Rates,
    /// The sum of the weights of one splitter or joiner: 65,536.
    Weights,
    /// How deep kernels stand in one another: 32.
    Nesting,
    /// The rows of a window of the latest rows: 1,000,000.
    Latest,
    /// The rows that a table keeps for each key: 1,000,000.
    Best,
}
