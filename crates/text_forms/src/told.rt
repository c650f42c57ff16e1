// What is told of a fault, and who writes it.
ghost use Rattle.std.specs.Prelude.{◌≡◌, ◌++◌, ℕ, List, OnOk, IfOk};
ghost use Rattle.std.specs.Fmt.{decimal};

use river_base::{Bytes, NoMemory};
use std::alloc::Global;

/// A fault that can be told.
pub trait Told: Copy {
    /// What is told of it.
    ghost told: { Self → List ℕ };

    /// Appends what is told of it; where there is no memory, a part of it may be appended.
    fn write(self, to: &mut Bytes) -> Result<(), NoMemory>
        ensures { OnOk result (to.new ≡ to.old ++ told self) };
}

/// What is told of a fault.
pub fn words<F: Told>(alloc: Global, fault: F) -> Result<Bytes, NoMemory>
    ensures { IfOk result (λ text. text ≡ F.told fault) }
{
    let mut text = Bytes::new(alloc);
    fault.write(&mut text)?;
    Ok(text)
}

/// Appends a word and a number in decimal digits; where there is no memory, a part of them may be
/// appended.
#[tactic(auto, using(text_tokens::proofs::Joined::joins))]
pub fn numbered(word: &[u8], number: u32, to: &mut Bytes) -> Result<(), NoMemory>
    ensures { OnOk result (to.new ≡ to.old ++ (word.now ++ decimal number)) }
{
    to.extend(word)?;
    to.put_number(number)
}
