// CQL as a language of the road.
ghost use Rattle.std.specs.Prelude.{false};
ghost use Rattle.river_langs.specs.Sources.{cql_in, IsCql};
ghost use Rattle.cql_text.specs.Tree.{program_of};

use crate::mean_cql;
use crate::records::timed_files_of;
use brooklet_step::Outcome;
use cql_front::{CqlFault, compile_cql};
use cql_text::CqlProgram;
use river_base::{Bytes, Listed, NoMemory};
use river_outside::Stop;
use river_plan::Caps;
use river_road::{Compiled, FileContent, Language, refused_program};
use std::alloc::Global;
use text_forms::TextFault;

/// CQL.
#[derive(Clone, Copy)]
pub struct Cql;

impl Language for Cql {
    type Program = CqlProgram;

    ghost source = { cql_in };

    ghost stands = { λ s t. IsCql s (program_of t) };

    ghost more = { false };

    fn takes_more() -> bool {
        false
    }

    fn compile(alloc: Global, text: &Bytes) -> Result<Compiled<CqlProgram>, Stop> {
        match compile_cql(alloc, text) {
            Ok((program, plan)) => Ok(Compiled {
                plan,
                caps: Caps::new(alloc),
                program,
            }),
            Err(CqlFault::Text(TextFault::NoMemory)) => Err(Stop::NoMemory),
            Err(fault) => Err(Stop::Refused(refused_program(alloc, fault)?)),
        }
    }

    fn mean(
        alloc: Global,
        compiled: &Compiled<CqlProgram>,
        files: Listed<FileContent>,
    ) -> Result<Outcome, NoMemory> {
        mean_cql(alloc, &compiled.program, &timed_files_of(alloc, files)?)
    }
}
