//! The tables that rows are added to, and what they make of them.
#![tactic(auto)]

mod best;
mod kept;
mod key;
mod kind;
pub mod laws;
mod maxima;
mod ranked;
mod sums;
mod table;

use best::Best;
pub use kept::Aggregate;
use key::{Key, key_of, row_of};
pub use kind::TableKind;
use maxima::Maxima;
pub use ranked::Ranked;
use sums::Sums;
pub use table::Table;
