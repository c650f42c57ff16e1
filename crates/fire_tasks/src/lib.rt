//! Operators at the ends of their queues: what each keeps of itself, and what a worker does with those that it has. Its laws say that
//! what tasks keep of themselves alone, and what the rings between them tell, is a run of the plan.
#![tactic(auto)]

mod adding;
mod bundle;
pub mod laws;
mod lots;
mod passing;
mod ports;
mod rounds;
mod taking;
mod task;

pub use bundle::{BEGUN, Bundle, CROWDED};
pub use ports::{Inlet, Outlet};
pub use rounds::round_of;
pub use taking::fire_at;
pub use task::{TablePort, Task};
