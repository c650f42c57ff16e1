//! StreamIt programs with parameters as they are written: their tree, their grammar, and the code that reads them from tokens; and
//! the text of a plain program.
#![tactic(auto)]

mod both;
mod constant;
mod filter;
mod known;
pub mod laws;
mod low;
mod parameters;
mod program;
mod read;
mod step;
mod unit;

pub use known::Parameters;
pub use parameters::WithParameters;
pub use program::{
    ParamBody, ParamFilter, ParamProgram, ParamRates, ParamSplit, ParamSplitJoin, ParamWork,
    Rounds, Step, Steps, Unit,
};
pub use read::read_params;
pub use step::StepWords;
