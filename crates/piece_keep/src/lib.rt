//! What is kept of a file that grows, so that the next call runs the new records alone.
#![tactic(auto)]

mod extent;
mod found;
mod front;
mod inputs;
pub mod laws;
mod mark;
mod marked;
mod place;

pub use extent::Extent;
pub use found::{Found, Front, Kept, find_kept};
pub use front::feed_front;
pub use inputs::feed_inputs;
pub use mark::{mark_front, whole_mark};
