// From the tokens of a text to its program.
ghost use Rattle.std.specs.Prelude.{◌<◌, ◌^◌, length, IfOk, IfErr};
ghost use Rattle.params_text.specs.Faults.{StandFor, Refuses};
ghost use Rattle.params_text.specs.Program.{unit_forms};

use crate::Unit;
use crate::unit::ParamUnits;
use std::alloc::Global;
use text_forms::{TextFault, read_some_of};
use text_tokens::Tokens;

/// The program with parameters that the units of these tokens stand for: filters, pipelines and
/// split-joins with whole numbers as parameters.
///
/// # Errors
///
/// `Syntax` with the first unit, from 1, that is not in the grammar, which is 1 where there is no
/// unit; `NoMemory` where there is no memory.
#[tactic(auto, using(crate::proofs::Programs::programs))]
pub fn read_params(alloc: Global, tokens: &Tokens<'_>) -> Result<Vec<Unit>, TextFault>
    requires { length tokens.now < 2 ^ 32 }
    ensures read { IfOk result (λ units. StandFor tokens.now (unit_forms units.items)) }
    ensures refused { IfErr result (Refuses tokens.now) }
{
    read_some_of(&ParamUnits, alloc, tokens)
}
