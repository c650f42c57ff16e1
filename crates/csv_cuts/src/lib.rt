//! CSV files in pieces: where a file may be cut, how many records a piece has, the loops that cut a file, and which
//! fault the whole file has.
#![tactic(auto)]

mod cut;
pub mod laws;
mod pieces;
mod window;

pub use cut::{Stand, records_in};
pub use pieces::{PieceSink, Size, cut_front, cut_rest};
pub use window::{PieceEnd, piece_end};
