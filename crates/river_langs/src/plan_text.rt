// River text as a language of the road.
ghost use Rattle.std.specs.Prelude.{false};
ghost use Rattle.river_langs.specs.Sources.{river_in};

use brooklet_run::run_lines;
use brooklet_step::Outcome;
use river_base::{Bytes, Listed, NoMemory};
use river_outside::Stop;
use river_road::{Compiled, FileContent, Language, inputs_of, refused_program};
use river_text::{RiverFault, RiverPlan, compile_river};
use std::alloc::Global;
use text_forms::TextFault;

/// River text, which is a plan; it alone gives capacities to queues.
#[derive(Clone, Copy)]
pub struct River;

impl Language for River {
    type Program = ();

    ghost source = { river_in };

    ghost stands = { λ s t. Unit {0} };

    ghost more = { false };

    fn takes_more() -> bool {
        false
    }

    fn compile(alloc: Global, text: &Bytes) -> Result<Compiled<()>, Stop> {
        match compile_river(alloc, text) {
            Ok(RiverPlan { plan, caps }) => Ok(Compiled {
                plan,
                caps,
                program: (),
            }),
            Err(RiverFault::Text(TextFault::NoMemory)) => Err(Stop::NoMemory),
            Err(fault) => Err(Stop::Refused(refused_program(alloc, fault)?)),
        }
    }

    fn mean(
        alloc: Global,
        compiled: &Compiled<()>,
        files: Listed<FileContent>,
    ) -> Result<Outcome, NoMemory> {
        run_lines(alloc, &compiled.plan, inputs_of(alloc, files)?)
    }
}
