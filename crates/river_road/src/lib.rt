//! From the words of a command over any source language to the text that is written, or, where a plan is run, up to its run: the
//! points of the commands, the files of a program's inputs, its script and its meaning.
//!
//! No language is named here, but that the text which `load` runs is in Sawzall. A language is a
//! type that implements [`Language`].
#![tactic(auto)]

mod content;
mod fetched;
mod gather;
mod gathered;
mod gathering;
mod item_lists;
mod language;
mod layout;
mod loading;
mod meant;
mod names;
mod road;
mod rows;
mod script;
mod text;

pub use content::FileContent;
pub use gather::gather as gather_contents;
pub use gathered::Gathered;
pub use gathering::gather_run;
pub use item_lists::inputs_of;
pub use language::{Compiled, Language};
pub use layout::Layout;
pub use loading::gather_load;
pub use road::{fetch_program, mean, show, upgrade};
pub use text::program as refused_program;
