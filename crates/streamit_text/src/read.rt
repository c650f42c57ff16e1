// From a text to its program.
ghost use Rattle.std.specs.Prelude.{◌<◌, ◌^◌, length, IfOk, IfErr};
ghost use Rattle.streamit_text.specs.Faults.{Refuses};
ghost use Rattle.streamit_text.specs.Grammar.{IsText};
ghost use Rattle.streamit_text.specs.Program.{program_of};

use crate::{Plain, StreamitGrammar, StreamitProgram};
use river_base::Bytes;
use std::alloc::Global;
use text_forms::{TextFault, read_some};

/// The program that a text stands for (the StreamIt language of Thies, Karczmarek and Amarasinghe,
/// cut to filters on whole numbers, pipelines and split-joins).
///
/// # Errors
///
/// `BadByte` or `BigNumber` with the first fault of the bytes where they have no tokens; otherwise
/// `Syntax` with the first unit, from 1, that is not in the grammar, which is 1 where there is no
/// unit; `NoMemory` where there is no memory.
#[tactic(auto, using(crate::proofs::Texts::programs))]
pub fn read_streamit(alloc: Global, text: &Bytes) -> Result<StreamitProgram, TextFault>
    requires { length text.now < 2 ^ 32 }
    ensures read { IfOk result (λ program. IsText text.now (program_of program)) }
    ensures refused { IfErr result (Refuses text.now) }
{
    let units = read_some(&StreamitGrammar { leaves: Plain }, alloc, text)?;
    Ok(StreamitProgram { units })
}
