// Rows joined in pairs.
ghost use Rattle.std.specs.Prelude.{◌≡◌, ◌++◌, ◌≤◌, ◌+◌, length, map, All, OnOk};
ghost use Rattle.river_base.specs.Changes.{all_pairs};
ghost use Rattle.kern_bags.specs.Needs.{CanJoin};

use river_base::{NoMemory, Row, Rows};

// One row joined with each of the others.
fn join_each(left: &Row, rights: &[Row], all: &mut Rows) -> Result<(), NoMemory>
    requires { All (λ y. length left.now + length y ≤ 16) rights.now }
    ensures { OnOk result (all.new ≡ all.old ++ map (λ y. left.now ++ y) rights.now) }
{
    for right in rights {
        all.push(left.joined(right))?;
    }
    Ok(())
}

/// All pairs of rows, joined.
pub(crate) fn join_all(lefts: &[Row], rights: &[Row], all: &mut Rows) -> Result<(), NoMemory>
    requires { CanJoin lefts.now rights.now }
    ensures { OnOk result (all.new ≡ all.old ++ all_pairs lefts.now rights.now) }
{
    for left in lefts {
        join_each(left, rights, all)?;
    }
    Ok(())
}
