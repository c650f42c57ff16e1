// What is asked of a source language.
ghost use Rattle.std.specs.Prelude.{◌≡◌, ◌≤◌, ℕ, List, length, Bool, Result, IfOk};
ghost use Rattle.river_outside.specs.Passes.{AnswersAs};
ghost use Rattle.river_plan.specs.Valid.{IsPlan};
ghost use Rattle.river_road.specs.Contents.{AreContents};
ghost use Rattle.river_road.specs.Limits.{most_program};
ghost use Rattle.river_road.specs.Source.{SourceProgram, IsCompiled, HasSource, GivesResults};

use crate::content::FileContent;
use brooklet_step::Outcome;
use river_base::{Bytes, Listed, NoMemory};
use river_outside::Stop;
use river_plan::{Caps, Plan};
use std::alloc::Global;

/// A program that was compiled.
#[derive(Drop)]
pub struct Compiled<P: Drop> {
    /// Its plan.
    pub plan: Plan,
    /// The capacities that it gives to queues of its plan.
    pub caps: Caps,
    /// The program as it is written.
    pub program: P,
}

/// A source language: how its texts are compiled, and what its programs mean by its own definition.
pub trait Language {
    /// A program as it is written.
    type Program: Drop;

    /// The program of a text, or the text that refuses it.
    ghost source: { List ℕ → Result SourceProgram (List ℕ) };

    /// Programs as they are written that have such a meaning, and that the language accepts.
    ghost stands: { SourceProgram → Self.Program → Type 0 };

    /// Whether a record of an input may have further fields, which are not looked at.
    ghost more: { Bool };

    /// Whether a record of an input may have further fields, which are not looked at.
    fn takes_more() -> bool
        ensures { result ≡ more };

    /// The program of a text, or its refusal.
    fn compile(alloc: Global, text: &Bytes) -> Result<Compiled<Self::Program>, Stop>
        requires { length text.now ≤ most_program }
        ensures { AnswersAs (IsCompiled stands) (source text.now) result };

    /// What a program gives for what the files of its inputs have, by the language's own definition.
    fn mean(
        alloc: Global,
        compiled: &Compiled<Self::Program>,
        files: Listed<FileContent>,
    ) -> Result<Outcome, NoMemory>
        requires valid { IsPlan compiled.now.plan }
        requires known { HasSource stands compiled.now }
        requires contents { AreContents compiled.now.plan.inputs files }
        ensures { IfOk result (λ outcome. (s : SourceProgram) → IsCompiled stands s compiled.now → GivesResults outcome (s.means files)) };
}
