// Why a script makes no plan, and what is told of it.
ghost use Rattle.std.specs.Prelude.{◌≡◌, ◌++◌, codes, OnOk};
ghost use Rattle.std.specs.Fmt.{decimal};
ghost use Rattle.plan_edits.specs.Words.{unfit_word};
ghost use Rattle.text_forms.specs.TextFaults.{text_words};
ghost use Rattle.text_forms.specs.declared.text_fault.TextFault.TheVariants as text_fault;
ghost use Rattle.river_script.specs.Words.{script_words};
ghost use Rattle.river_script.specs.declared.fault.ScriptFault.TheVariants as fault;

use plan_edits::Unfit;
use river_base::{Bytes, NoMemory};
use text_forms::{TextFault, Told, numbered};

/// Why a script makes no plan.
#[derive(Clone, Copy)]
pub enum ScriptFault {
    /// The text is not read, or there was no memory; where a unit is no step, it is told by its number,
    /// from 1.
    Text(TextFault),
    /// This step, from 1, is the first that fails, and this is its first condition that does.
    Unfit { step: u32, why: Unfit },
}

impl From<NoMemory> for ScriptFault {
    ghost from_gives = { λ _ f. f ≡ fault.Text text_fault.NoMemory };

    fn from(_: NoMemory) -> Self {
        ScriptFault::Text(TextFault::NoMemory)
    }
}

impl From<TextFault> for ScriptFault {
    ghost from_gives = { λ text f. f ≡ fault.Text text };

    fn from(text: TextFault) -> Self {
        ScriptFault::Text(text)
    }
}

impl Told for ScriptFault {
    ghost told = { script_words };

    fn write(self, to: &mut Bytes) -> Result<(), NoMemory> {
        match self {
            ScriptFault::Text(fault) => put_unread(fault, to),
            ScriptFault::Unfit { step, why } => put_step(step, why, to),
        }
    }
}

// Appends why the text is not read.
#[tactic(auto, using(text_tokens::proofs::Joined::joins))]
fn put_unread(fault: TextFault, to: &mut Bytes) -> Result<(), NoMemory>
    ensures { OnOk result (to.new ≡ to.old ++ (codes "script: " ++ text_words fault)) }
{
    to.extend(b"script: ")?;
    fault.write(to)
}

// Appends the number of a step and its condition.
#[tactic(auto, using(text_tokens::proofs::Joined::joins))]
fn put_step(step: u32, why: Unfit, to: &mut Bytes) -> Result<(), NoMemory>
    ensures { OnOk result (to.new ≡ to.old ++ (codes "rewrite " ++ (decimal step ++ (codes ": " ++ unfit_word why)))) }
{
    numbered(b"rewrite ", step, to)?;
    to.extend(b": ")?;
    to.extend(why.word())
}
