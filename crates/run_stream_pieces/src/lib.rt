//! Programs of the StreamIt language in pieces, by calls of river: what the calls write for pieces that overlap, put together by lines,
//! is what the program means for the whole file. Laws over the definitions alone.
#![tactic(auto)]

pub mod laws;
