//! Programs that are run in pieces: the jobs of a work folder, which of them came whole, and what is written in the end.
#![tactic(auto)]

mod came;
mod fetched;
mod finish;
mod going_on;
mod keeping;
pub mod laws;
mod list;
mod looking;
mod plan;
mod progress;
mod told;
mod verdict;

pub use came::{Ending, ended};
pub use fetched::fetch_file;
pub use going_on::{MOST_TURNS, Next, go_on, go_on_keeping};
pub use list::{list_of_all, words_of_job};
pub use looking::{Came, look};
pub use plan::MOST_TEXT;
pub use progress::Progress;
pub use verdict::{Verdict, judge};
