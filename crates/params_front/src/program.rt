// What is made of a program.
use params_text::ParamProgram;
use river_base::{Bytes, Numbers};

/// What is made of a program.
#[derive(Drop)]
pub struct Elaborated {
    /// The program as it is written.
    pub tree: ParamProgram,
    /// The text of its plain program, which is StreamIt.
    pub plain: Bytes,
    /// Of which unit of the program each plain unit is an instance, from 1.
    pub from: Numbers,
}
