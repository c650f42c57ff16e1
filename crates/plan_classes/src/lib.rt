//! The lock classes of a plan's tables: which operators use each table, the class of each table, and the lines that tell the classes.
#![tactic(auto)]

mod class_numbers;
pub mod laws;
mod lines;
mod user_set;
mod users;

pub use class_numbers::classes;
pub use lines::print_classes;
use river_base::{Listed, Numbers};
pub use users::table_users;

/// For each table the operators that use it, in ascending order.
pub type UserLists = Listed<Numbers>;
