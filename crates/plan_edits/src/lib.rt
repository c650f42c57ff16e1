//! What the rewrites of plans share: why one is refused, look-ups in a plan, and the lemmas on lists that are edited.
#![tactic(auto)]

mod kinds;
mod lists;
mod unfit;

pub use kinds::kind_of;
pub use lists::outer_lists;
pub use unfit::Unfit;
