// Operators of a plan.
ghost use Rattle.std.specs.Prelude.{◌≡◌, IfOk};
ghost use Rattle.river_plan.specs.Forms.{op_form};

use river_base::{Duplicate, Listed, Name, NoMemory};
use river_kernels::Kernel;
use std::alloc::Global;

/// A list of names.
pub type Names = Listed<Name>;

/// An operator: a kernel with the queues and variables that it uses, after the operators of the Brooklet calculus
/// (Soulé and others, ESOP 2010).
#[derive(Drop)]
pub struct Op {
    /// The operator's own name.
    pub label: Name,
    /// What it does with an item.
    pub kernel: Kernel,
    /// The queues from which it takes items, one for each input port of the kernel.
    pub reads: Names,
    /// The queues to which it gives items, one for each output port of the kernel.
    pub writes: Names,
    /// Its variables, private ones and tables, in the order in which the kernel uses them.
    pub vars: Names,
}

/// A list of operators.
pub type Ops = Listed<Op>;

impl Op {
    /// An operator of the same meaning.
    pub fn copy(&self, alloc: Global) -> Result<Op, NoMemory>
        ensures { IfOk result (λ copy. op_form copy ≡ op_form self.now) }
    {
        let reads = self.reads.copy(alloc)?;
        let writes = self.writes.copy(alloc)?;
        let vars = self.vars.copy(alloc)?;
        Ok(Op {
            label: self.label,
            kernel: self.kernel.copy(alloc)?,
            reads,
            writes,
            vars,
        })
    }
}
