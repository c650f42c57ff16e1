// The leaves of expressions.
ghost use Rattle.std.specs.Prelude.{◌≡◌, ℕ, List, IfOk};
ghost use Rattle.text_tokens.specs.Tok.{Tok};
ghost use Rattle.text_forms.specs.Gives.{Gives};
ghost use Rattle.text_forms.specs.Parse.{Parse};
ghost use Rattle.streamit_text.specs.Expressions.{AreLeaves};
ghost use Rattle.streamit_text.specs.Leaves.{pop_at, named_leaf, leaf_at, IsLeaf};
ghost use Rattle.streamit_text.specs.Tree.{Expression, expression, depth_of};

use crate::Expr;
use crate::names::own;
use text_forms::{ParseFault, Reader, is};
use text_tokens::{Symbol, Token};

/// The leaves of StreamIt's expressions, or of those of a language that has others.
pub trait Leaves {
    /// How a leaf is read, where so many more brackets may be open.
    ghost leaf: { Self → ℕ → Parse Expression };

    /// Which tokens are a leaf, where so many more brackets may be open.
    ghost form: { Self → ℕ → Expression → List Tok → Type 0 };

    /// The leaf that has to come next.
    fn leaf(&self, reader: &mut Reader<'_>, brackets: u32) -> Result<Expr, ParseFault>
        ensures reads { Gives expression result reader.new (leaf self.now brackets reader.old) }
        ensures depth { IfOk result (λ e. depth_of (expression e) ≡ 1) };

    ghost apart: { (l : Self) → AreLeaves (form l) (leaf l) };
}

/// StreamIt's own leaves: NUMBER, NAME and `pop()`.
pub struct Plain;

/// What stands behind the word `pop`: `()`.
#[tactic(auto, unfolding(crate::specs::Leaves::pop_at))]
pub fn pop(reader: &mut Reader<'_>, brackets: u32) -> Result<Expr, ParseFault>
    ensures reads { Gives expression result reader.new (pop_at brackets reader.old) }
    ensures depth { IfOk result (λ e. depth_of (expression e) ≡ 1) }
{
    reader.opens(Symbol::Open, brackets)?;
    reader.expect(&[Symbol::Close])?;
    Ok(Expr::Pop)
}

// A leaf that begins with this name.
#[tactic(auto, unfolding(crate::specs::Leaves::named_leaf))]
fn named_leaf(reader: &mut Reader<'_>, brackets: u32, text: &[u8]) -> Result<Expr, ParseFault>
    ensures reads { Gives expression result reader.new (named_leaf brackets text.now reader.old) }
    ensures depth { IfOk result (λ e. depth_of (expression e) ≡ 1) }
{
    if is(text, b"pop") {
        return pop(reader, brackets);
    }
    match own(text) {
        Some(name) => Ok(Expr::Name(name)),
        None => Err(ParseFault::Syntax),
    }
}

impl Leaves for Plain {
    ghost use Rattle.streamit_text.specs.ExactLeaves.{apart};

    ghost leaf = { λ _. leaf_at };

    ghost form = { λ _. IsLeaf };

    ghost apart = { λ _. apart };

    fn leaf(&self, reader: &mut Reader<'_>, brackets: u32) -> Result<Expr, ParseFault>
        ensures reads { Gives expression result reader.new (leaf_at brackets reader.old) }
        ensures depth { IfOk result (λ e. depth_of (expression e) ≡ 1) }
    {
        match reader.peek() {
            Some(Token::Number(value)) => {
                if value > 9_223_372_036_854_775_807 {
                    return Err(ParseFault::Syntax);
                }
                reader.skip();
                Ok(Expr::Number(value))
            }
            Some(Token::Name(text)) => {
                reader.skip();
                named_leaf(reader, brackets, text)
            }
            _ => Err(ParseFault::Syntax),
        }
    }
}
