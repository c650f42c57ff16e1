// Bodies as they are kept and as they are run.
ghost use Rattle.std.specs.Prelude.{◌≡◌, IfOk};
ghost use Rattle.work_code.specs.Acts.{act_steps};
ghost use Rattle.work_code.specs.Steps.{steps};

use crate::Stmts;
use crate::acts::{Acts, acts_of};
use river_base::NoMemory;
use std::alloc::Global;
use std::marker::Model;

/// Statements, and beside them the form in which they are run. Contracts see the statements.
#[derive(Drop)]
pub struct Body {
    stmts: Stmts,
    acts: Acts,
}

impl Model for Body {
    ghost use Rattle.work_code.specs.declared.code.Stmts.{Stmts};
    ghost use Rattle.work_code.specs.StmtsCode.{stmts_code};

    ghost Value = { Stmts };

    ghost coded = { stmts_code };

    ghost use Rattle.std.specs.Prelude.{◌≡◌};
    ghost use Rattle.work_code.specs.Acts.{act_steps};
    ghost use Rattle.work_code.specs.Steps.{steps};

    ghost view = { λ b. b.stmts };

    ghost invariant = { λ b. act_steps b.acts ≡ steps b.stmts };
}

impl Body {
    /// The body of these statements.
    pub fn of(alloc: Global, stmts: Stmts) -> Result<Body, NoMemory>
        ensures { IfOk result (λ body. body ≡ stmts) }
    {
        let acts = acts_of(alloc, &stmts)?;
        Ok(Body { stmts, acts })
    }

    /// The statements.
    pub fn stmts(&self) -> &Stmts
        ensures { result.now ≡ self.now }
    {
        &self.stmts
    }

    /// A body with the same trees.
    pub fn copy(&self, alloc: Global) -> Result<Body, NoMemory>
        ensures { IfOk result (λ copy. steps copy ≡ steps self.now) }
    {
        Body::of(alloc, self.stmts.copy(alloc)?)
    }

    /// The statements in the form in which they are run.
    pub(crate) fn acts(&self) -> &Acts
        ensures { act_steps result.now ≡ steps self.now }
    {
        &self.acts
    }
}
