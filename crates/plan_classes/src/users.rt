// Which operators use each table.
ghost use Rattle.std.specs.Prelude.{◌≡◌, ◌<◌, ◌^◌, pos, All, map, IfOk};
ghost use Rattle.plan_classes.specs.Users.{table_users};

use crate::UserLists;
use river_base::{NoMemory, Numbers};
use river_plan::Plan;
use std::alloc::Global;

/// For each table of a plan, in the order declared, the numbers of the operators that use it, in ascending order.
pub fn table_users(alloc: Global, plan: &Plan) -> Result<UserLists, NoMemory>
    ensures { IfOk result (λ users. users ≡ table_users plan.now) }
{
    let mut all = UserLists::new(alloc);
    for table in 0..plan.raw().tables.len() {
        all.push(as_numbers(alloc, plan.users_of(table))?)?;
    }
    Ok(all)
}

// These numbers of operators as values.
fn as_numbers(alloc: Global, ops: &[usize]) -> Result<Numbers, NoMemory>
    requires { All (λ op. op < 2 ^ 63) ops.now }
    ensures { IfOk result (λ numbers. numbers ≡ map pos ops.now) }
{
    let mut numbers = Numbers::new(alloc);
    for op in ops {
        numbers.push(*op as i64)?;
    }
    Ok(numbers)
}
