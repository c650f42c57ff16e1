// Operators whose kernels do not fit.
ghost use Rattle.std.specs.Prelude.{◌≡◌, ◌<◌, IfOk, IsTrue, ◌↔◌, length, map as mapped};
ghost use Rattle.river_base.specs.Places.{list_at};
ghost use Rattle.river_kernels.specs.Kern.{kern_of};
ghost use Rattle.river_plan.specs.Forms.{plan_form};
ghost use Rattle.river_plan.specs.Faults.{Misfit};
ghost use Rattle.river_plan.specs.ByPlace.{kind_at, var_kind_at, queue_kinds, var_kinds, FitsPlaces};
ghost use Rattle.river_plan.specs.Wired.{IsWired};

use crate::kinds::{queue_kinds, var_kinds};
use kern_check::fits;
use river_base::{FlatType, Listed, NoMemory, QueueType};
use river_kernels::{Kernel, VarKind};
use river_plan::{Named, Places, RawPlan, Wiring};
use std::alloc::Global;

/// The label of the first operator whose kernel does not fit its queues and variables, or is badly formed.
pub(crate) fn misfit(
    alloc: Global,
    raw: &RawPlan,
    wiring: &Wiring,
) -> Result<Option<Named>, NoMemory>
    requires { IsWired (plan_form raw.now) wiring.now }
    ensures { IfOk result (Misfit (plan_form raw.now)) }
{
    let queues = queue_kinds(alloc, raw)?;
    let vars = var_kinds(alloc, raw)?;
    first_misfit(alloc, raw, wiring, queues.as_slice(), vars.as_slice())
}

// The same, where the types of the queues and the kinds of the variables are known.
fn first_misfit(
    alloc: Global,
    raw: &RawPlan,
    wiring: &Wiring,
    queues: &[QueueType],
    vars: &[VarKind],
) -> Result<Option<Named>, NoMemory>
    requires wired { IsWired (plan_form raw.now) wiring.now }
    requires queues { queues.now ≡ queue_kinds (plan_form raw.now) }
    requires vars { vars.now ≡ var_kinds (plan_form raw.now) }
    ensures { IfOk result (Misfit (plan_form raw.now)) }
{
    for number in 0..raw.ops.len() {
        let op = raw.ops.at(number);
        if !is_fit(alloc, &op.kernel, wiring, number, queues, vars)? {
            return Ok(Some(Named::Label(op.label)));
        }
    }
    Ok(None)
}

// Whether the kernel of the operator of this number fits.
fn is_fit(
    alloc: Global,
    kernel: &Kernel,
    wiring: &Wiring,
    op: usize,
    queues: &[QueueType],
    vars: &[VarKind],
) -> Result<bool, NoMemory>
    requires reads { op < length wiring.now.reads.by_op }
    requires writes { op < length wiring.now.writes.by_op }
    requires vars { op < length wiring.now.vars.by_op }
    ensures { IfOk result (λ fit. IsTrue fit
        ↔ FitsPlaces queues.now vars.now (kern_of kernel.now) (list_at wiring.now.reads.by_op op) (list_at wiring.now.writes.by_op op)
        (list_at wiring.now.vars.by_op op)) }
{
    let reads = kinds_at(alloc, wiring.reads.by_op.at(op), queues)?;
    let writes = kinds_at(alloc, wiring.writes.by_op.at(op), queues)?;
    let kinds = vars_at(alloc, wiring.vars.by_op.at(op), vars)?;
    fits(
        alloc,
        kernel,
        reads.as_slice(),
        writes.as_slice(),
        kinds.as_slice(),
    )
}

// The types at these places.
#[tactic(auto, using(work_code::proofs::Lists::copies))]
fn kinds_at(
    alloc: Global,
    places: &Places,
    queues: &[QueueType],
) -> Result<Listed<QueueType>, NoMemory>
    ensures { IfOk result (λ kinds. kinds ≡ mapped (kind_at queues.now) places.now) }
{
    let mut kinds = Listed::new(alloc);
    for place in places.as_slice() {
        kinds.push(kind_at(*place, queues))?;
    }
    Ok(kinds)
}

// The kinds at these places.
#[tactic(auto, using(work_code::proofs::Lists::copies))]
fn vars_at(alloc: Global, places: &Places, vars: &[VarKind]) -> Result<Listed<VarKind>, NoMemory>
    ensures { IfOk result (λ kinds. kinds ≡ mapped (var_kind_at vars.now) places.now) }
{
    let mut kinds = Listed::new(alloc);
    for place in places.as_slice() {
        kinds.push(var_at(*place, vars))?;
    }
    Ok(kinds)
}

// The type at a place; one without width beyond the last.
fn kind_at(place: usize, queues: &[QueueType]) -> QueueType
    ensures { result ≡ kind_at queues.now place }
{
    queues
        .get(place)
        .copied()
        .unwrap_or(QueueType::Flat(FlatType::Rows(0)))
}

// The kind at a place; a table without width beyond the last.
fn var_at(place: usize, vars: &[VarKind]) -> VarKind
    ensures { result ≡ var_kind_at vars.now place }
{
    vars.get(place).copied().unwrap_or(VarKind::Table(0))
}
