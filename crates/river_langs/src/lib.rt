//! The source languages, as the road from a program to its output asks for them: River text, StreamIt, StreamIt with parameters,
//! Sawzall and CQL; and what their programs mean by the definitions of the languages, by plain evaluation of their trees.
#![tactic(auto)]

mod cql;
pub mod laws;
mod params;
mod plan_text;
mod records;
mod sawzall;
mod streamit;

pub use cql::Cql;
pub use params::Params;
pub use plan_text::River;
pub use sawzall::Sawzall;
pub use slow_cql::mean_cql;
pub use slow_sawzall::mean_sawzall;
pub use slow_streamit::mean_streamit;
pub use streamit::Streamit;
