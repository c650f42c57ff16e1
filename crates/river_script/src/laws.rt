//! Laws of scripts.
ghost use Rattle.river_script.specs.Grammar.{OneScript};
ghost use Rattle.river_script.specs.Judged.{ScriptIsJudged};
ghost use Rattle.river_script.specs.Laws.{MakesWhatItHas};
ghost use Rattle.river_script.specs.Script.{ScriptIsPrintable, ScriptKeeps, ScriptMeans};

/// A text stands for one list of steps at most.
pub fn one_script()
    ensures { OneScript }
{}

/// `rewritten` gives a plan exactly where the text stands for steps of which it is the last plan, a fault of the bytes
/// exactly where it is the first, a unit exactly where it is the first that is no step, and a step with its condition
/// exactly where the text stands for steps of which it is the first that fails.
pub fn makes_what_it_has()
    ensures { MakesWhatItHas }
{}

/// The steps of a script give the plan to which they lead one after another, and otherwise the first step that fails with the first of
/// its conditions that does: each condition and each step's plan as they are described.
pub fn script_is_judged()
    ensures { ScriptIsJudged }
{}

/// A script keeps a plan valid, and its inputs, outputs and tables, and what it means on all inputs that fit.
pub fn script_keeps()
    ensures { ScriptKeeps }
{}

/// The plan that a script makes has the plan's meaning, tables included.
pub fn script_means()
    ensures { ScriptMeans }
{}

/// A script keeps that `if` nests at most 16 deep and no window's range is below 0, so what is printed of the plan that it makes of
/// a plan that was read or translated is River text that stands for it.
pub fn script_is_printable()
    ensures { ScriptIsPrintable }
{}
