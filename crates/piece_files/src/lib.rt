//! The files of a program that is run in pieces: which there are, a folder that holds them among the files of a store, in memory or
//! of the system, and pieces that become the records of jobs.
#![tactic(auto)]

mod count;
mod file;
mod files;
mod folder;
mod inputs;
pub mod laws;
mod memory;
mod store;
mod system;

pub use file::JobFile;
pub use files::JobFiles;
pub use folder::Folder;
pub use inputs::Inputs;
pub use memory::MemStore;
pub use store::Store;
pub use system::FileStore;
