// The leaves of expressions in the blocks of a filter, some of whose names are parameters.
ghost use Rattle.std.specs.Prelude.{◌≡◌, List, IfOk};
ghost use Rattle.text_forms.specs.Gives.{Gives};
ghost use Rattle.text_tokens.specs.Tok.{Tok};
ghost use Rattle.streamit_text.specs.Tree.{expression, depth_of};
ghost use Rattle.params_text.specs.Parameters.{place_at, named_with, leaf_with, IsLeafWith};

use crate::Parameters;
use river_base::Name;
use streamit_text::{Expr, Leaves, own, pop};
use text_forms::{ParseFault, Reader, is};
use text_tokens::Token;

/// StreamIt's leaves, where a name that is one of these parameters counts as one open bracket.
#[derive(Clone, Copy)]
pub struct WithParameters<'p> {
    pub names: &'p Parameters,
}

// A name, where no more brackets may be open.
#[tactic(auto, using(crate::proofs::Places::places))]
fn last_place(names: &Parameters, name: Name) -> Result<Expr, ParseFault>
    ensures reads { (ts : List Tok) → Gives expression result ts (place_at names.now 0 name ts) }
    ensures depth { IfOk result (λ e. depth_of (expression e) ≡ 1) }
{
    if names.has(&name) {
        Err(ParseFault::Syntax)
    } else {
        Ok(Expr::Name(name))
    }
}

// A name, where so many more brackets may be open.
#[tactic(auto, using(crate::proofs::Places::places))]
fn place(
    reader: &mut Reader<'_>,
    names: &Parameters,
    brackets: u32,
    name: Name,
) -> Result<Expr, ParseFault>
    ensures reads { Gives expression result reader.new (place_at names.now brackets name reader.old) }
    ensures depth { IfOk result (λ e. depth_of (expression e) ≡ 1) }
{
    if brackets == 0 {
        return last_place(names, name);
    }
    Ok(Expr::Name(name))
}

// A leaf that begins with this name.
#[tactic(auto, unfolding(crate::specs::Parameters::named_with))]
fn named_with(
    reader: &mut Reader<'_>,
    names: &Parameters,
    brackets: u32,
    text: &[u8],
) -> Result<Expr, ParseFault>
    ensures reads { Gives expression result reader.new (named_with names.now brackets text.now reader.old) }
    ensures depth { IfOk result (λ e. depth_of (expression e) ≡ 1) }
{
    if is(text, b"pop") {
        return pop(reader, brackets);
    }
    match own(text) {
        Some(name) => place(reader, names, brackets, name),
        None => Err(ParseFault::Syntax),
    }
}

impl<'p> Leaves for WithParameters<'p> {
    ghost use Rattle.params_text.specs.ExactParameters.{apart-with};

    ghost leaf = { λ l. leaf_with l.names.now };

    ghost form = { λ l. IsLeafWith l.names.now };

    ghost apart = { λ l. apart-with l.names.now };

    fn leaf(&self, reader: &mut Reader<'_>, brackets: u32) -> Result<Expr, ParseFault>
        ensures reads { Gives expression result reader.new (leaf_with self.now.names.now brackets reader.old) }
        ensures depth { IfOk result (λ e. depth_of (expression e) ≡ 1) }
    {
        match reader.peek() {
            Some(Token::Number(value)) => {
                if value > 9_223_372_036_854_775_807 {
                    return Err(ParseFault::Syntax);
                }
                reader.skip();
                Ok(Expr::Number(value))
            }
            Some(Token::Name(text)) => {
                reader.skip();
                named_with(reader, self.names, brackets, text)
            }
            _ => Err(ParseFault::Syntax),
        }
    }
}
