// The instances of a program's last stream and of all that it adds.
ghost use Rattle.params_text.specs.Program.{unit_forms};
ghost use Rattle.params_model.specs.Making.{last_made};
ghost use Rattle.params_front.specs.Standing.{sources};
ghost use Rattle.params_model.specs.Constants.{AreFitUnits};
ghost use Rattle.params_front.specs.Written.{MakesText};

use crate::Making;
use crate::body::Seen;
use params_build::Refused;
use params_model::{Fault, Refusal};
use params_print::Bindings;
use params_text::Unit;
use river_base::{Bytes, Numbers};
use std::alloc::Global;

/// The plain program of a program with parameters, and the number of the source unit, from 1, of
/// each of its units.
#[derive(Drop)]
pub struct Written {
    pub plain: Bytes,
    pub from: Numbers,
}

/// The plain program of these units, of which each has so many bytes: an instance for the last
/// stream and for each `add` that is met, children before their parent.
///
/// # Errors
///
/// The first fault in the order in which instances are made, with the unit that is being made:
/// `Range`, `Empty` or `Budget`; `UnknownName` where an `add` names no stream above, which a program
/// that was judged has not; `NoMemory` where there is no memory.
pub fn made(alloc: Global, units: &[Unit], sizes: &[usize]) -> Result<Written, Refused>
    requires { AreFitUnits (unit_forms units.now) }
    ensures { MakesText result (last_made (sources units.now sizes.now)) }
{
    let count = units.len();
    if count == 0 {
        return Err(Refused::Program(Refusal {
            unit: 0,
            fault: Fault::UnknownName,
        }));
    }
    let last = count - 1;
    let mut making = Making::new(alloc);
    let top = Seen {
        units: &units[..last],
        sizes,
        depth: 1,
    };
    making.make(alloc, top, &units[last], Bindings::new(alloc))?;
    Ok(Written {
        plain: making.text,
        from: making.from,
    })
}
