//! Laws of fusion and hoisting.
ghost use Rattle.rw_local.specs.Fuse.{FuseKeeps};
ghost use Rattle.rw_local.specs.Fusion.{FusionIsJudged};
ghost use Rattle.rw_local.specs.Hoist.{HoistKeeps};
ghost use Rattle.rw_local.specs.Hoisting.{HoistingIsJudged};

/// Fusion keeps a plan valid, and what it means.
pub fn fuse_keeps()
    ensures { FuseKeeps }
{}

/// Fusion is refused by the first of its conditions that fails, and makes the plan that is described exactly where none
/// fails.
pub fn fusion_is_judged()
    ensures { FusionIsJudged }
{}

/// Hoisting keeps a plan valid, and what it means.
pub fn hoist_keeps()
    ensures { HoistKeeps }
{}

/// Hoisting is refused by the first of its conditions that fails, and makes the plan that is described exactly where none
/// fails.
pub fn hoisting_is_judged()
    ensures { HoistingIsJudged }
{}
