// What stands at the beginning and at the end of a form.
ghost use Rattle.std.specs.Prelude.{◌≡◌, [], ◌∷◌, Ok, Err, if◌then◌else◌};
ghost use Rattle.std.specs.Str.{bytes_eq};
ghost use Rattle.text_forms.specs.Gives.{Keeps};
ghost use Rattle.text_forms.specs.Parse.{symbols_at};
ghost use Rattle.text_forms.specs.declared.fault.ParseFault.TheVariants as fault;

use crate::{ParseFault, Reader};
use text_tokens::Symbol;

/// Whether a word is this one.
pub fn is(word: &[u8], name: &[u8]) -> bool
    ensures { result ≡ bytes_eq word.now name.now }
{
    word == name
}

/// A value, where this symbol stands behind it.
///
/// # Errors
///
/// `Syntax` where another token comes next, or none.
pub fn closed<T: Drop>(reader: &mut Reader<'_>, value: T, symbol: Symbol) -> Result<T, ParseFault>
    ensures { Keeps value result reader.new (symbols_at (symbol ∷ []) reader.old) }
{
    reader.expect(&[symbol])?;
    Ok(value)
}

/// A value, where a test holds.
///
/// # Errors
///
/// `Syntax` where it does not.
pub fn kept<T: Drop>(value: T, test: bool) -> Result<T, ParseFault>
    ensures { result ≡ (if test then Ok value else Err fault.Syntax) }
{
    if test {
        Ok(value)
    } else {
        Err(ParseFault::Syntax)
    }
}
