// Rows that come and go, as a change.
ghost use Rattle.std.specs.Prelude.{◌≡◌, IfOk};
ghost use Rattle.river_base.specs.Changes.{cancelled};

use crate::difference::without;
use river_base::{Change, NoMemory, Rows};
use std::alloc::Global;

/// The change that rows make which come and go, in any order: those that do both are left out,
/// each as often as it does. Costs n log n of the rows.
pub fn settle(alloc: Global, at: i64, plus: Rows, minus: Rows) -> Result<Change, NoMemory>
    ensures { IfOk result (λ change. change ≡ cancelled at plus minus) }
{
    let mut plus = plus;
    let mut minus = minus;
    plus.sort()?;
    minus.sort()?;
    let came = without(alloc, &plus, &minus)?;
    let went = without(alloc, &minus, &plus)?;
    Ok(Change {
        at,
        plus: came,
        minus: went,
    })
}
