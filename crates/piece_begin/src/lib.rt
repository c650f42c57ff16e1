//! A program begins to be run in pieces: a file is cut into jobs in a work folder, or what it has behind what is kept of an
//! earlier call; and what is printed in the end.
#![tactic(auto)]

mod beginning;
mod growing;
mod jobs;
mod marking;
mod printing;
mod putting;

pub use beginning::{Call, begin};
pub use growing::begin_kept;
pub use printing::print;
