//! What river reads from and writes to: shelves of named files and sinks of bytes, over memory and over the system; and points in
//! order, of which the first that fails decides: what a run asks of a shelf, and how it ends.
//!
//! No language is named here. A sentence of the command line has an order of points (`specs/Order.antt`); what a run answers over a
//! shelf is said of that order, whether the shelf tells what it holds or not.
#![tactic(auto)]

mod count;
mod fetching;
pub mod laws;
mod memory;
mod put;
mod real;
mod shelf;
mod sink;
mod stop;
mod text;
mod turn;

pub use fetching::{FetchFault, fetch};
pub use memory::{Files, MemShelf, MemSink};
pub use put::put_all;
pub use real::{FileShelf, StdSink};
pub use shelf::{ReadFault, Shelf};
pub use sink::{Failed, Sink};
pub use stop::Stop;
pub use turn::fetch_turn;
