// Programs judged: their units, one after another, and the last of them.
ghost use Rattle.std.specs.Prelude.{◌≡◌, ◌<◌, ◌^◌, ℕ, List, [], ◌∷◌, length, OnOk};
ghost use Rattle.params_text.specs.Program.{unit_form, unit_forms};
ghost use Rattle.params_model.specs.Judged.{Above, source_units, top_judged, unit_judged, units_judged};
ghost use Rattle.params_build.specs.Above.{CountsParameters};
ghost use Rattle.params_build.specs.Judging.{refused_in, Judges, JudgesAll};

use crate::above::StreamsAbove;
use crate::unit::unit;
use crate::{Refused, RefusedUnit};
use params_model::{Fault, Refusal};
use params_text::Unit;
use std::alloc::Global;

/// All units of a program, one after another.
///
/// # Errors
///
/// The first fault in reading order, where the block of a loop of steps is read once, with its unit;
/// `NoMemory` where there is no memory.
pub fn judged(alloc: Global, units: &[Unit]) -> Result<(), Refused>
    requires { length units.now < 2 ^ 32 }
    ensures { JudgesAll result (units_judged 1 [] (unit_forms units.now)) }
{
    let mut above = StreamsAbove::new(alloc);
    each_unit(alloc, &mut above, units)
}

// The units, below these streams.
fn each_unit(alloc: Global, above: &mut StreamsAbove, units: &[Unit]) -> Result<(), Refused>
    requires { length units.now < 2 ^ 32 }
    ensures { (us : Above) → CountsParameters above.old us → JudgesAll result (units_judged 1 us (unit_forms units.now)) }
{
    'units: for i in 0..units.len() {
        match unit_and_name(alloc, above, &units[i]) {
            Ok(()) => {}
            Err(why) => return Err(refused_in(i as u32 + 1, why)),
        }
    }
    Ok(())
}

// Why a program is refused whose unit with this number is.
fn refused_in(unit: u32, why: RefusedUnit) -> Refused
    ensures { result ≡ refused_in unit why }
{
    match why {
        RefusedUnit::Fault(fault) => Refused::Program(Refusal { unit, fault }),
        RefusedUnit::NoMemory => Refused::NoMemory,
    }
}

// A unit, which is declared then.
fn unit_and_name(alloc: Global, above: &mut StreamsAbove, one: &Unit) -> Result<(), RefusedUnit>
    ensures judged { (k : ℕ) (us : Above) → CountsParameters above.old us → Judges k result (unit_judged k us (unit_form one.now)) }
    ensures known { (us : Above) → CountsParameters above.old us → OnOk result (CountsParameters above.new ((one.now.name, length one.now.params.items) ∷ us)) }
{
    unit(alloc, above, one)?;
    above.declare(one.name, one.params.len())?;
    Ok(())
}

/// The last unit, which has no parameters.
///
/// # Errors
///
/// `Top` with its number, where it has.
pub fn top(units: &[Unit]) -> Result<(), Refused>
    requires { length units.now < 2 ^ 32 }
    ensures { (sizes : List ℕ) → JudgesAll result (top_judged (source_units (unit_forms units.now) sizes)) }
{
    let count = units.len();
    if count == 0 {
        return Ok(());
    }
    if units[count - 1].params.is_empty() {
        return Ok(());
    }
    Err(Refused::Program(Refusal {
        unit: count as u32,
        fault: Fault::Top,
    }))
}
