//! The check of a plan: a valid one from its lists, or the first fault of these.
#![tactic(auto)]

mod declared;
mod judge;
mod kinds;
mod limit;
mod lists;
mod misfit;
mod name_set;
mod once;
mod order;
mod search;
mod types;
mod uses;
mod valid;
mod wired;

pub use judge::check;
pub use kinds::queue_kinds;
pub use search::name_again;
pub use uses::check_uses;
pub use valid::plan_of;
