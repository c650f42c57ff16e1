// A gate that a firing passes.

/// Told of each firing as it begins.
pub trait Gate {
    /// Operator number `op` begins a firing.
    fn enter(&self, op: u32);
}

/// A gate that does nothing.
#[derive(Clone, Copy)]
pub struct NoGate;

impl Gate for NoGate {
    fn enter(&self, _op: u32) {}
}
