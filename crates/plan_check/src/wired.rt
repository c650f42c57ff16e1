// The names of a plan as places, looked up once.
ghost use Rattle.std.specs.Prelude.{◌≡◌, [], ◌∷◌, length, IfOk, OnOk, map as mapped};
ghost use Rattle.river_base.specs.Places.{only, each_grew};
ghost use Rattle.river_plan.specs.Forms.{plan_form, op_form, op_forms, queue_names, variable_names};
ghost use Rattle.river_plan.specs.Places.{names_of, places, as_often, users};
ghost use Rattle.river_plan.specs.Wired.{AreUses, IsWired};

use crate::name_set::NameSet;
use river_base::{Listed, NoMemory};
use river_plan::{Names, Op, Ops, Places, RawPlan, Role, Uses, Wiring};
use std::alloc::Global;

/// The wiring of these lists, of which the names are in sets.
pub(crate) fn wiring_by(
    alloc: Global,
    raw: &RawPlan,
    queues: &NameSet,
    variables: &NameSet,
) -> Result<Wiring, NoMemory>
    requires queues { queues.now ≡ queue_names (plan_form raw.now) }
    requires variables { variables.now ≡ variable_names (plan_form raw.now) }
    ensures { IfOk result (IsWired (plan_form raw.now)) }
{
    let reads = uses_of(alloc, &raw.ops, queues, Role::Reads)?;
    let writes = uses_of(alloc, &raw.ops, queues, Role::Writes)?;
    let vars = uses_of(alloc, &raw.ops, variables, Role::Vars)?;
    Ok(Wiring {
        reads,
        writes,
        vars,
    })
}

// What operators use by their names of one role, both ways.
fn uses_of(alloc: Global, ops: &Ops, set: &NameSet, role: Role) -> Result<Uses, NoMemory>
    ensures { IfOk result (AreUses (length set.now) (mapped (λ op. places set.now (names_of role op)) (op_forms ops.now))) }
{
    let by_op = op_places(alloc, ops, set, role)?;
    let by_place = users(alloc, &by_op, set.len())?;
    Ok(Uses { by_op, by_place })
}

// For each of so many places the numbers of the lists in which it stands, as often as it stands there.
fn users(alloc: Global, lists: &Listed<Places>, count: usize) -> Result<Listed<Places>, NoMemory>
    ensures { IfOk result (λ all. all ≡ users count lists.now) }
{
    let mut all = Listed::blanks(alloc, count)?;
    for number in 0..lists.len() {
        add_user(&mut all, lists.at(number), number)?;
    }
    Ok(all)
}

// The number comes to the lists at these places.
fn add_user(all: &mut Listed<Places>, places: &Places, number: usize) -> Result<(), NoMemory>
    ensures { OnOk result (all.new ≡ each_grew all.old (as_often places.now number)) }
{
    for port in 0..places.len() {
        add_at(all, *places.at(port), number)?;
    }
    Ok(())
}

// The number comes to the list at this place, where there is one.
fn add_at(all: &mut Listed<Places>, place: usize, number: usize) -> Result<(), NoMemory>
    ensures { OnOk result (all.new ≡ each_grew all.old (only place (number ∷ []))) }
{
    if place < all.len() {
        all.push_at(place, number)?;
    }
    Ok(())
}

// The places of each operator's names of one role, one after another.
fn op_places(
    alloc: Global,
    ops: &Ops,
    set: &NameSet,
    role: Role,
) -> Result<Listed<Places>, NoMemory>
    ensures { IfOk result (λ all. all ≡ mapped (λ op. places set.now (names_of role op)) (op_forms ops.now)) }
{
    let mut all = Listed::new(alloc);
    for op in ops.as_slice() {
        all.push(places_in(alloc, set, names_of(op, role))?)?;
    }
    Ok(all)
}

// An operator's names of one role.
fn names_of(op: &Op, role: Role) -> &Names
    ensures { result.now ≡ names_of role (op_form op.now) }
{
    match role {
        Role::Reads => &op.reads,
        Role::Writes => &op.writes,
        Role::Vars => &op.vars,
    }
}

// The places of these names.
fn places_in(alloc: Global, set: &NameSet, names: &Names) -> Result<Places, NoMemory>
    ensures { IfOk result (λ all. all ≡ places set.now names.now) }
{
    let mut all = Places::new(alloc);
    for name in names.as_slice() {
        all.push(set.place(*name))?;
    }
    Ok(all)
}
