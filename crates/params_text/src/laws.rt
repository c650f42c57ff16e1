//! Laws over the definitions alone.
ghost use Rattle.params_text.specs.Laws.{OneParamProgram, TextStands};

/// A text stands for one program with parameters at most.
#[tactic(auto, using(crate::proofs::ParamTexts::one_param_program))]
pub fn one_param_program()
    ensures { OneParamProgram }
{}

/// The text of a plain program stands for that program, and for no other.
#[tactic(auto, using(crate::proofs::Texts::text_stands))]
pub fn text_stands()
    ensures { TextStands }
{}
