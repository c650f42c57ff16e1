//! What is true of the text and the script that `load` runs.
ghost use Rattle.river_langs.specs.Laws.{LoadStands};

/// `load` is never refused: its text is a program, and its script makes a plan of it.
#[tactic(auto, using(crate::proofs::LoadStands::load_stands))]
pub fn load_stands()
    ensures { LoadStands }
{}
