// Sawzall as a language of the road.
ghost use Rattle.std.specs.Prelude.{true};
ghost use Rattle.river_langs.specs.Sources.{saw_in, IsSawzall};
ghost use Rattle.saw_text.specs.Tree.{program_of};

use crate::mean_sawzall;
use crate::records::{listed, rows_of};
use brooklet_step::Outcome;
use river_base::{Bytes, Listed, NoMemory};
use river_outside::Stop;
use river_plan::Caps;
use river_road::{Compiled, FileContent, Language, refused_program};
use saw_front::{SawFault, compile_sawzall};
use saw_text::SawProgram;
use std::alloc::Global;
use text_forms::TextFault;

/// Sawzall. A record may have further fields, which are not looked at.
#[derive(Clone, Copy)]
pub struct Sawzall;

impl Language for Sawzall {
    type Program = SawProgram;

    ghost source = { saw_in };

    ghost stands = { λ s t. IsSawzall s (program_of t) };

    ghost more = { true };

    fn takes_more() -> bool {
        true
    }

    fn compile(alloc: Global, text: &Bytes) -> Result<Compiled<SawProgram>, Stop> {
        match compile_sawzall(alloc, text) {
            Ok((program, plan)) => Ok(Compiled {
                plan,
                caps: Caps::new(alloc),
                program,
            }),
            Err(SawFault::Text(TextFault::NoMemory)) => Err(Stop::NoMemory),
            Err(fault) => Err(Stop::Refused(refused_program(alloc, fault)?)),
        }
    }

    fn mean(
        alloc: Global,
        compiled: &Compiled<SawProgram>,
        files: Listed<FileContent>,
    ) -> Result<Outcome, NoMemory> {
        mean_sawzall(
            alloc,
            &compiled.program,
            &listed(alloc, rows_of(alloc, files))?,
        )
    }
}
