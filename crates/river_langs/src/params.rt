// StreamIt with parameters as a language of the road.
ghost use Rattle.std.specs.Prelude.{false};
ghost use Rattle.river_langs.specs.Sources.{params_in, IsStreamit};
ghost use Rattle.streamit_text.specs.Program.{unit_forms};

use crate::mean_streamit;
use crate::records::{rows_of, values_of};
use brooklet_step::Outcome;
use params_front::{ParamFault, compile_params};
use river_base::{Bytes, Listed, NoMemory};
use river_outside::Stop;
use river_plan::Caps;
use river_road::{Compiled, FileContent, Language, refused_program};
use std::alloc::Global;
use streamit_text::StreamitProgram;
use text_forms::TextFault;

/// StreamIt with parameters. Its program is the plain one that is made of it.
#[derive(Clone, Copy)]
pub struct Params;

impl Language for Params {
    type Program = StreamitProgram;

    ghost source = { params_in };

    ghost stands = { λ s t. IsStreamit s (unit_forms t.units.items) };

    ghost more = { false };

    fn takes_more() -> bool {
        false
    }

    fn compile(alloc: Global, text: &Bytes) -> Result<Compiled<StreamitProgram>, Stop> {
        match compile_params(alloc, text) {
            Ok((_, program, plan)) => Ok(Compiled {
                plan,
                caps: Caps::new(alloc),
                program,
            }),
            Err(ParamFault::Text(TextFault::NoMemory)) => Err(Stop::NoMemory),
            Err(fault) => Err(Stop::Refused(refused_program(alloc, fault)?)),
        }
    }

    fn mean(
        alloc: Global,
        compiled: &Compiled<StreamitProgram>,
        files: Listed<FileContent>,
    ) -> Result<Outcome, NoMemory> {
        mean_streamit(
            alloc,
            &compiled.program,
            &values_of(alloc, rows_of(alloc, files))?,
        )
    }
}
