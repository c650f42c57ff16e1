// The first name of a list at which something is found.
ghost use Rattle.std.specs.Prelude.{◌≡◌, [], None, IfOk};
ghost use Rattle.std.specs.Option.{option_map};
ghost use Rattle.river_plan.specs.declared.fault.Named.TheVariants.{Queue, Variable};
ghost use Rattle.river_plan.specs.First.{IsFirst};
ghost use Rattle.river_plan.specs.Faults.{IsNew, IsIn};

use crate::name_set::NameSet;
use river_base::{Name, NoMemory};
use river_plan::{Named, Names};
use std::alloc::Global;

/// Adds these names to the empty set; answers the first that stood before.
pub(crate) fn add_new(set: &mut NameSet, names: &Names) -> Result<Option<Name>, NoMemory>
    requires { set.old ≡ [] }
    ensures first { IfOk result (IsFirst IsNew names.now) }
    ensures all { IfOk result (λ found. found ≡ None → set.new ≡ names.now) }
{
    for name in names.as_slice() {
        if !set.insert(*name)? {
            return Ok(Some(*name));
        }
    }
    Ok(None)
}

/// The first of these names that stood before it.
pub fn name_again(alloc: Global, names: &Names) -> Result<Option<Name>, NoMemory>
    ensures { IfOk result (IsFirst IsNew names.now) }
{
    let mut seen = NameSet::new(alloc);
    add_new(&mut seen, names)
}

/// The first name that is not in the set.
pub(crate) fn first_missing(names: &Names, set: &NameSet) -> Option<Name>
    ensures { IsFirst (IsIn set.now) names.now result }
{
    for name in names.as_slice() {
        if !set.contains(*name) {
            return Some(*name);
        }
    }
    None
}

/// The name, as one of a queue.
pub(crate) fn as_queue(name: Option<Name>) -> Option<Named>
    ensures { result ≡ option_map Queue name }
{
    name.map(Named::Queue)
}

/// The name, as one of a variable.
pub(crate) fn as_variable(name: Option<Name>) -> Option<Named>
    ensures { result ≡ option_map Variable name }
{
    name.map(Named::Variable)
}
