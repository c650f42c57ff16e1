// The check of a plan.
ghost use Rattle.std.specs.Prelude.{None, Err, IfOk, OnOk, IfErr};
ghost use Rattle.river_plan.specs.Forms.{plan_form};
ghost use Rattle.river_plan.specs.Told.{IsTold};
ghost use Rattle.river_plan.specs.Valid.{FirstFault, IsJudged};
ghost use Rattle.river_plan.specs.Wired.{AreNamed, IsWired, LaterFault};

use crate::declared::wiring_of;
use crate::limit::over_limit;
use crate::misfit::misfit;
use crate::once::{read_twice, shared, written_twice};
use crate::order::read_too_early;
use crate::types::mistyped;
use river_base::NoMemory;
use river_plan::{Plan, PlanFault, RawPlan, Wiring};
use std::alloc::Global;

/// The plan of these lists, exactly where they have no fault; otherwise their first fault: the first kind from `P1` to
/// `P9` that holds anywhere, at the first place in the order of the lists.
pub fn check(alloc: Global, raw: RawPlan) -> Result<Plan, PlanFault>
    ensures judged { IsJudged (plan_form raw) result }
    ensures told { IsTold (plan_form raw) result }
{
    match checked(alloc, &raw) {
        Ok(wiring) => Ok(Plan::of_valid(alloc, raw, wiring)?),
        Err(fault) => Err(fault),
    }
}

// The wiring of lists without a fault; otherwise their first fault.
fn checked(alloc: Global, raw: &RawPlan) -> Result<Wiring, PlanFault>
    ensures wired { IfOk result (IsWired (plan_form raw.now)) }
    ensures faultless { OnOk result (FirstFault (plan_form raw.now) None) }
    ensures fault { IfErr result (λ fault. IsJudged (plan_form raw.now) (Err fault)) }
{
    let wiring = wiring_of(alloc, raw)?;
    faultless(alloc, raw, &wiring)?;
    Ok(wiring)
}

// The first fault of these lists, whose names are in order, where there is one.
fn faultless(alloc: Global, raw: &RawPlan, wiring: &Wiring) -> Result<(), PlanFault>
    requires named { AreNamed (plan_form raw.now) }
    requires wired { IsWired (plan_form raw.now) wiring.now }
    ensures faultless { OnOk result (FirstFault (plan_form raw.now) None) }
    ensures fault { IfErr result (λ fault. IsJudged (plan_form raw.now) (Err fault)) }
{
    match later_fault(alloc, raw, wiring)? {
        Some(fault) => Err(fault),
        None => Ok(()),
    }
}

// The first fault of these lists, whose names are in order.
fn later_fault(alloc: Global, raw: &RawPlan, wiring: &Wiring) -> Result<Option<PlanFault>, NoMemory>
    requires named { AreNamed (plan_form raw.now) }
    requires wired { IsWired (plan_form raw.now) wiring.now }
    ensures { IfOk result (LaterFault (plan_form raw.now)) }
{
    if let Some(name) = written_twice(alloc, raw, wiring)? {
        return Ok(Some(PlanFault::P3(name)));
    }
    if let Some(name) = read_twice(alloc, raw, wiring)? {
        return Ok(Some(PlanFault::P4(name)));
    }
    if let Some(name) = read_too_early(raw, wiring) {
        return Ok(Some(PlanFault::P5(name)));
    }
    if let Some(name) = mistyped(raw) {
        return Ok(Some(PlanFault::P6(name)));
    }
    if let Some(name) = misfit(alloc, raw, wiring)? {
        return Ok(Some(PlanFault::P7(name)));
    }
    if let Some(fault) = over_limit(raw) {
        return Ok(Some(fault));
    }
    match shared(alloc, raw, wiring)? {
        Some(name) => Ok(Some(PlanFault::P9(name))),
        None => Ok(None),
    }
}
