//! Laws of plans.
ghost use Rattle.std.specs.Prelude.{◌≡◌, None, ◌↔◌, Option};
ghost use Rattle.river_plan.specs.declared.fault.PlanFault.{PlanFault};
ghost use Rattle.river_plan.specs.Forms.{PlanForm};
ghost use Rattle.river_plan.specs.Told.{fault_of};
ghost use Rattle.river_plan.specs.Valid.{IsPlan, FirstFault};

/// There is no fault exactly where a plan is valid.
pub fn no_fault_where_valid()
    ensures { (p : PlanForm) → FirstFault p None ↔ IsPlan p }
{}

/// A plan has one first fault, or none.
pub fn one_first_fault()
    ensures { (p : PlanForm) (o q : Option PlanFault) → FirstFault p o → FirstFault p q → o ≡ q }
{}

/// A plan has a first fault, or none; it is what `fault_of` gives.
pub fn first_fault_is_told()
    ensures found { (p : PlanForm) → FirstFault p (fault_of p) }
    ensures alone { (p : PlanForm) (o : Option PlanFault) → FirstFault p o → fault_of p ≡ o }
{}
