//! Periods of StreamIt streams: how many items more give how many more, reckoned on any plan of filters, splitters and joiners, and the laws
//! that what such a plan gives for pieces of an input, put together, is what it gives for the whole.
#![tactic(auto)]

pub mod laws;
