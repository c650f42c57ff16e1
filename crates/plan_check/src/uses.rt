// Plans of which only the names and their uses are asked.
ghost use Rattle.std.specs.Prelude.{None, Err, IfOk, OnOk, IfErr};
ghost use Rattle.river_plan.specs.Faults.{WrittenTwice, ReadTwice, ReadTooEarly};
ghost use Rattle.river_plan.specs.Forms.{plan_form};
ghost use Rattle.river_plan.specs.Valid.{IsJudged};
ghost use Rattle.river_plan.specs.Wired.{AreNamed, IsWired};

use crate::declared::wiring_of;
use crate::once::{read_twice, written_twice};
use crate::order::read_too_early;
use river_plan::{PlanFault, RawPlan, Wiring};
use std::alloc::Global;

/// The wiring of lists in which no name stands twice, all that operators name are declared, and each queue is written
/// once and read once, after it is written; otherwise the first fault of these kinds, `P1` to `P5`.
pub fn check_uses(alloc: Global, raw: &RawPlan) -> Result<Wiring, PlanFault>
    ensures wired { IfOk result (IsWired (plan_form raw.now)) }
    ensures named { OnOk result (AreNamed (plan_form raw.now)) }
    ensures written { OnOk result (WrittenTwice (plan_form raw.now) None) }
    ensures read { OnOk result (ReadTwice (plan_form raw.now) None) }
    ensures in_order { OnOk result (ReadTooEarly (plan_form raw.now) None) }
    ensures fault { IfErr result (λ fault. IsJudged (plan_form raw.now) (Err fault)) }
{
    let wiring = wiring_of(alloc, raw)?;
    used(alloc, raw, &wiring)?;
    Ok(wiring)
}

// The first queue of these lists, whose names are in order, that is not used as it may be.
#[tactic(auto, using(crate::proofs::Misused::written_fault, crate::proofs::Misused::read_fault, crate::proofs::Misused::early_fault))]
fn used(alloc: Global, raw: &RawPlan, wiring: &Wiring) -> Result<(), PlanFault>
    requires named { AreNamed (plan_form raw.now) }
    requires wired { IsWired (plan_form raw.now) wiring.now }
    ensures written { OnOk result (WrittenTwice (plan_form raw.now) None) }
    ensures read { OnOk result (ReadTwice (plan_form raw.now) None) }
    ensures in_order { OnOk result (ReadTooEarly (plan_form raw.now) None) }
    ensures fault { IfErr result (λ fault. IsJudged (plan_form raw.now) (Err fault)) }
{
    if let Some(name) = written_twice(alloc, raw, wiring)? {
        return Err(PlanFault::P3(name));
    }
    if let Some(name) = read_twice(alloc, raw, wiring)? {
        return Err(PlanFault::P4(name));
    }
    match read_too_early(raw, wiring) {
        Some(name) => Err(PlanFault::P5(name)),
        None => Ok(()),
    }
}
