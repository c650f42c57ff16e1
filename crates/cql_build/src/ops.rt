// The operators of a query.
ghost use Rattle.std.specs.Prelude.{◌≡◌, ◌≤◌, ◌∷◌, [], IfOk};
ghost use Rattle.work_code.specs.Term.{terms};
ghost use Rattle.river_kernels.specs.Kern.{duplicate, window, select, project, cross, streamer};
ghost use Rattle.river_plan.specs.Forms.{op_form};
ghost use Rattle.cql_model.specs.Plan.{op, resolved, terms_of, widths_of};
ghost use Rattle.cql_model.specs.KernelWords.{kernel_window, streamer_of};
ghost use Rattle.cql_text.specs.Tree.{scalar, window_of, chosen_of};
ghost use Rattle.cql_build.specs.Views.{scope};

use crate::Item;
use crate::places::resolve;
use cql_text::{Column, Kind, Scalar, Window};
use kern_bags::{Streamer, Window as Kept};
use river_base::{Name, NoMemory};
use river_kernels::Kernel;
use river_plan::{Names, Op};
use std::alloc::Global;
use work_code::{Exprs, Formula, Formulas};

/// The operator of a window.
pub(crate) fn window_op(alloc: Global, name: Name, kept: Window, from: Name) -> Result<Op, NoMemory>
    ensures { IfOk result (λ made. op_form made ≡ op name (window (kernel_window (window_of kept))) (from ∷ []) (name ∷ []) (name ∷ [])) }
{
    let reads = Names::one(alloc, from)?;
    let writes = Names::one(alloc, name)?;
    let vars = Names::one(alloc, name)?;
    Ok(Op {
        label: name,
        kernel: Kernel::Window(window_kernel(kept)),
        reads,
        writes,
        vars,
    })
}

// The window as a kernel.
fn window_kernel(window: Window) -> Kept
    ensures { result ≡ kernel_window (window_of window) }
{
    match window {
        Window::Now => Kept::Now,
        Window::Range(span, _) => Kept::Range(span.value as i64),
        Window::Unbounded => Kept::Unbounded,
        Window::Rows(n) => Kept::Latest(n),
    }
}

/// The operator of a product.
pub(crate) fn cross_op(alloc: Global, name: Name, left: Name, right: Name) -> Result<Op, NoMemory>
    ensures { IfOk result (λ made. op_form made ≡ op name cross (left ∷ right ∷ []) (name ∷ []) (name ∷ [])) }
{
    let mut reads = Names::one(alloc, left)?;
    reads.push(right)?;
    let writes = Names::one(alloc, name)?;
    let vars = Names::one(alloc, name)?;
    Ok(Op {
        label: name,
        kernel: Kernel::Cross,
        reads,
        writes,
        vars,
    })
}

/// The operator of a condition.
pub(crate) fn select_op(
    alloc: Global,
    name: Name,
    items: &[Item<'_>],
    value: &Scalar,
    from: Name,
) -> Result<Op, NoMemory>
    requires { widths_of (scope items.now) ≤ 16 }
    ensures { IfOk result (λ made. op_form made ≡ op name (select (resolved (scope items.now) (scalar value.now))) (from ∷ []) (name ∷ []) []) }
{
    let reads = Names::one(alloc, from)?;
    let writes = Names::one(alloc, name)?;
    Ok(Op {
        label: name,
        kernel: Kernel::Select(Formula::of(alloc, resolve(alloc, items, value)?)?),
        reads,
        writes,
        vars: Names::new(alloc),
    })
}

/// The operator of columns.
pub(crate) fn project_op(
    alloc: Global,
    name: Name,
    items: &[Item<'_>],
    columns: &[Column],
    from: Name,
) -> Result<Op, NoMemory>
    requires { widths_of (scope items.now) ≤ 16 }
    ensures { IfOk result (λ made. op_form made ≡ op name (project (terms_of (scope items.now) (chosen_of columns.now))) (from ∷ []) (name ∷ []) []) }
{
    let reads = Names::one(alloc, from)?;
    let writes = Names::one(alloc, name)?;
    Ok(Op {
        label: name,
        kernel: Kernel::Project(Formulas::of(alloc, values(alloc, items, columns)?)?),
        reads,
        writes,
        vars: Names::new(alloc),
    })
}

// The values of the columns.
fn values(alloc: Global, items: &[Item<'_>], columns: &[Column]) -> Result<Exprs, NoMemory>
    requires { widths_of (scope items.now) ≤ 16 }
    ensures { IfOk result (λ all. terms all ≡ terms_of (scope items.now) (chosen_of columns.now)) }
{
    let mut all = Exprs::new(alloc);
    for column in columns {
        all.push(resolve(alloc, items, &column.value)?)?;
    }
    Ok(all)
}

/// The operator that makes a stream of a query's relation.
pub(crate) fn stream_op(
    alloc: Global,
    name: Name,
    kind: Kind,
    from: Name,
    to: Name,
) -> Result<Op, NoMemory>
    ensures { IfOk result (λ made. op_form made ≡ op name (streamer (streamer_of kind)) (from ∷ []) (to ∷ []) (name ∷ [])) }
{
    let reads = Names::one(alloc, from)?;
    let writes = Names::one(alloc, to)?;
    let vars = Names::one(alloc, name)?;
    Ok(Op {
        label: name,
        kernel: Kernel::Streamer(streamer_kernel(kind)),
        reads,
        writes,
        vars,
    })
}

// The streamer as a kernel.
fn streamer_kernel(kind: Kind) -> Streamer
    ensures { result ≡ streamer_of kind }
{
    match kind {
        Kind::Istream => Streamer::Istream,
        Kind::Dstream => Streamer::Dstream,
        Kind::Rstream => Streamer::Rstream,
    }
}

/// The operator that copies a stream to so many queues.
pub(crate) fn copy_op(
    alloc: Global,
    name: Name,
    count: u32,
    from: Name,
    writes: Names,
) -> Result<Op, NoMemory>
    ensures { IfOk result (λ made. op_form made ≡ op name (duplicate count) (from ∷ []) writes []) }
{
    let reads = Names::one(alloc, from)?;
    Ok(Op {
        label: name,
        kernel: Kernel::Duplicate(count),
        reads,
        writes,
        vars: Names::new(alloc),
    })
}
