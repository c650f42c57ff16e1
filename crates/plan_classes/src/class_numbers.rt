//! The class of each table, as a number.
ghost use Rattle.std.specs.Prelude.{◌≡◌, pos, IfOk};
ghost use Rattle.plan_classes.specs.Classes.{AreClasses};

use crate::UserLists;
use crate::user_set::UserSet;
use river_base::{Duplicate, NoMemory, Numbers};
use std::alloc::Global;

/// The class of each table: two tables are in one class exactly where the same operators use them, and classes are numbered
/// from 0 by their first table.
pub fn classes(alloc: Global, users: &UserLists) -> Result<Numbers, NoMemory>
    ensures { IfOk result (λ classes. AreClasses users.now classes) }
{
    let mut seen = UserSet::new(alloc);
    let mut classes = Numbers::new(alloc);
    for list in users.as_slice() {
        let class = seen.class_of(list.copy(alloc)?)?;
        classes.push(number_of(class)?)?;
    }
    Ok(classes)
}

// A place as a value. No memory holds more places than there are values.
fn number_of(place: usize) -> Result<i64, NoMemory>
    ensures { IfOk result (λ number. number ≡ pos place) }
{
    match i64::try_from(place) {
        Ok(number) => Ok(number),
        Err(_) => Err(NoMemory),
    }
}
