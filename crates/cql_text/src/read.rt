// From a text to its program.
ghost use Rattle.std.specs.Prelude.{◌<◌, ◌^◌, length, IfOk, IfErr};
ghost use Rattle.cql_text.specs.Faults.{Refuses};
ghost use Rattle.cql_text.specs.Grammar.{IsText};
ghost use Rattle.cql_text.specs.Tree.{program_of};

use crate::CqlProgram;
use crate::unit::CqlGrammar;
use river_base::Bytes;
use std::alloc::Global;
use text_forms::{TextFault, read_bytes};

/// The program that a text stands for (CQL of Arasu, Babu and Widom, 2006, cut to one grammar of streams, windows and
/// queries).
///
/// # Errors
///
/// `BadByte` or `BigNumber` with the first fault of the bytes where they have no tokens; otherwise `Syntax` with the first
/// unit, from 1, that is not in the grammar; `NoMemory` where there is no memory.
#[tactic(auto, using(crate::proofs::Texts::programs))]
pub fn read_cql(alloc: Global, text: &Bytes) -> Result<CqlProgram, TextFault>
    requires { length text.now < 2 ^ 32 }
    ensures read { IfOk result (λ program. IsText text.now (program_of program)) }
    ensures refused { IfErr result (Refuses text.now) }
{
    let units = read_bytes(&CqlGrammar, alloc, text)?;
    Ok(CqlProgram { units })
}
