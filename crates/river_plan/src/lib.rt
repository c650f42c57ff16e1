//! Plans: queues, variables and operators, and what a valid plan is.
#![tactic(auto)]

mod caps;
mod fault;
pub mod laws;
mod op;
mod plan;
mod valid;
mod wiring;

pub use caps::{Cap, Caps, CapsByName};
pub use fault::{Named, PlanFault};
pub use op::{Names, Op, Ops};
pub use plan::{Decl, Decls, RawPlan, TableDecl, TableDecls};
pub use river_base::{FlatType, QueueType};
pub use river_kernels::{Kernel, Limit};
pub use valid::Plan;
pub use wiring::{Places, Role, Uses, Wiring};
