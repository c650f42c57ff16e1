//! Programs of the StreamIt language over files in pieces that overlap: what runs on the pieces print, put together by lines, is what the
//! program means for the whole file, and the fault of a record in a piece is the whole file's. Laws over the definitions alone.
#![tactic(auto)]

pub mod laws;
