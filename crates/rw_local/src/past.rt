// Which operators a selection passes.
ghost use Rattle.work_code.specs.Term.{term, terms};
ghost use Rattle.river_kernels.specs.Kern.{kern_of};
ghost use Rattle.rw_local.specs.Hoist.{passes, refielded, of_projection, of_first, of_second, at_side, either_side, or_h4};
ghost use Rattle.rw_local.specs.HoistCode.{IsPassing};

use crate::exprs::{Fields, refielded};
use kern_bags::Window;
use plan_edits::Unfit;
use river_plan::Kernel;
use std::alloc::Global;
use work_code::{Expr, Exprs};

/// Where the selection stands above an operator of this kernel, whose first input has rows of this width.
pub(crate) fn passes(
    alloc: Global,
    width: u32,
    kernel: &Kernel,
    cond: &Expr,
) -> Result<(usize, Expr), Unfit>
    ensures { IsPassing (passes width (kern_of kernel.now) (term cond.now)) result }
{
    match kernel {
        Kernel::Window(Window::Latest(_)) => Err(Unfit::H3),
        Kernel::Window(_) | Kernel::Streamer(_) => Ok((0, cond.copy(alloc)?)),
        Kernel::Project(list) => past_projection(alloc, list.exprs(), cond),
        Kernel::Cross => past_cross(alloc, width, cond),
        _ => Err(Unfit::H3),
    }
}

fn past_projection(alloc: Global, exprs: &Exprs, cond: &Expr) -> Result<(usize, Expr), Unfit>
    ensures { IsPassing (or_h4 (at_side 0 (refielded (of_projection (terms exprs.now)) (term cond.now)))) result }
{
    match refielded(alloc, cond, Fields::Projection(exprs))? {
        Some(moved) => Ok((0, moved)),
        None => Err(Unfit::H4),
    }
}

fn past_cross(alloc: Global, width: u32, cond: &Expr) -> Result<(usize, Expr), Unfit>
    ensures { IsPassing (or_h4 (either_side (at_side 0 (refielded (of_first width) (term cond.now)))
        (at_side 1 (refielded (of_second width) (term cond.now))))) result }
{
    if let Some(moved) = refielded(alloc, cond, Fields::First(width))? {
        return Ok((0, moved));
    }
    match refielded(alloc, cond, Fields::Second(width))? {
        Some(moved) => Ok((1, moved)),
        None => Err(Unfit::H4),
    }
}
