// Instances of streams, and lists of those that are added.
ghost use Rattle.std.specs.Prelude.{◌≡◌, ◌++◌, [], ◌∷◌, OnOk};
ghost use Rattle.text_tokens.specs.Tok as tok;
ghost use Rattle.text_tokens.specs.declared.sign.Symbol.TheVariants as s;
ghost use Rattle.text_tokens.specs.Spaced.{spaced};
ghost use Rattle.params_text.specs.Toks.{other_toks};
ghost use Rattle.params_print.specs.Heads.{opening_toks, name_written, names_written};

use crate::token::tokens;
use river_base::{Bytes, Name, NoMemory};
use text_tokens::{Symbol, Token};

/// An instance of a stream: the stream's name, and the number of the instance.
#[derive(Clone, Copy)]
pub struct Instance {
    pub stream: Name,
    pub number: u32,
}

// Appends the name of an instance.
#[tactic(auto, using(crate::proofs::Texts::joins))]
fn named(instance: &Instance, to: &mut Bytes) -> Result<(), NoMemory>
    ensures { OnOk result (to.new ≡ to.old ++ spaced (tok.name (name_written instance.now) ∷ [])) }
{
    to.extend(instance.stream.as_slice())?;
    to.extend(b"_")?;
    to.put_number(instance.number)?;
    to.extend(b" ")
}

// Appends the head of a unit.
#[tactic(auto, using(crate::proofs::Texts::texts))]
pub(crate) fn head(kind: &[u8], instance: &Instance, to: &mut Bytes) -> Result<(), NoMemory>
    ensures { OnOk result (to.new ≡ to.old ++ spaced (opening_toks kind.now (name_written instance.now))) }
{
    let before = [
        Token::Name(b"int"),
        Token::Sign(Symbol::Arrow),
        Token::Name(b"int"),
        Token::Name(kind),
    ];
    tokens(&before, to)?;
    named(instance, to)?;
    tokens(&[Token::Sign(Symbol::OpenBrace)], to)
}

// Appends the last token of a unit.
pub(crate) fn end(to: &mut Bytes) -> Result<(), NoMemory>
    ensures { OnOk result (to.new ≡ to.old ++ spaced (tok.symbol s.CloseBrace ∷ [])) }
{
    tokens(&[Token::Sign(Symbol::CloseBrace)], to)
}

// Appends an `add` for each instance.
#[tactic(auto, using(crate::proofs::Texts::texts))]
pub(crate) fn adds(children: &[Instance], to: &mut Bytes) -> Result<(), NoMemory>
    ensures { OnOk result (to.new ≡ to.old ++ spaced (other_toks (names_written children.now))) }
{
    'children: for each in children {
        tokens(&[Token::Name(b"add")], to)?;
        named(each, to)?;
        tokens(&[Token::Sign(Symbol::Semicolon)], to)?;
    }
    Ok(())
}
