//! The forms of grammars and readers that all text formats share.
#![tactic(auto)]

mod climb;
mod dialect;
mod end;
mod fault;
mod form;
mod names;
mod reader;
mod text_fault;
mod told;
mod units;

pub use climb::read;
pub use dialect::{Dialect, TokenSource};
pub use end::{closed, is, kept};
pub use fault::ParseFault;
pub use form::Form;
pub use names::is_free;
pub use reader::Reader;
pub use text_fault::TextFault;
pub use told::{Told, numbered, words};
pub use units::{Units, read_bytes, read_some, read_some_of};
