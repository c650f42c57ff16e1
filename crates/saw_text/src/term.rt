// Expressions read.
ghost use Rattle.std.specs.Prelude.{◌≡◌, IfOk};
ghost use Rattle.text_forms.specs.Gives.{Gives};
ghost use Rattle.saw_text.specs.Expressions.{named, leaf_at};
ghost use Rattle.saw_text.specs.Tree.{expression, depth_of};

use crate::Expr;
use crate::names::user;
use river_base::NoMemory;
use std::alloc::Global;
use text_blocks::{Sign, Terms, place, take_sign};
use text_forms::{ParseFault, Reader, is};
use text_tokens::Token;
use work_code::BinOp;

// A leaf that begins with this name.
#[tactic(auto, unfolding(crate::specs::Expressions::named))]
fn named(reader: &mut Reader<'_>, brackets: u32, text: &[u8]) -> Result<Expr, ParseFault>
    ensures reads { Gives expression result reader.new (named brackets text.now reader.old) }
    ensures depth { IfOk result (λ e. depth_of (expression e) ≡ 1) }
{
    if is(text, b"input") {
        return Ok(Expr::Input(place(reader, brackets)?));
    }
    match user(text) {
        Some(name) => Ok(Expr::Name(name)),
        None => Err(ParseFault::Syntax),
    }
}

// A number, a name, or a field of the record.
fn leaf(reader: &mut Reader<'_>, brackets: u32) -> Result<Expr, ParseFault>
    ensures reads { Gives expression result reader.new (leaf_at brackets reader.old) }
    ensures depth { IfOk result (λ e. depth_of (expression e) ≡ 1) }
{
    match reader.peek() {
        Some(Token::Number(value)) => {
            if value > 9_223_372_036_854_775_807 {
                return Err(ParseFault::Syntax);
            }
            reader.skip();
            Ok(Expr::Number(value))
        }
        Some(Token::Name(text)) => {
            reader.skip();
            named(reader, brackets, text)
        }
        _ => Err(ParseFault::Syntax),
    }
}

/// The language, for the readers of expressions and of statements of any language.
pub(crate) struct SawzallGrammar;

impl Terms for SawzallGrammar {
    ghost use Rattle.saw_text.specs.Expressions.{marks, deepest, leaf_at};
    ghost use Rattle.saw_text.specs.Tree.{Expression, expression};

    type Tree = Expr;

    type Mark = Sign;

    ghost Plain = { Expression };

    ghost view = { expression };

    ghost marks = { λ _. marks };

    ghost leaf = { λ _. leaf_at };

    ghost deeper = { λ _. deepest };

    fn sign(&self, reader: &mut Reader<'_>) -> Option<Sign> {
        take_sign(reader)
    }

    #[tactic(auto, using(text_blocks::proofs::Seven::calls))]
    fn call(&self, _reader: &mut Reader<'_>) -> Option<Sign> {
        None
    }

    fn leaf(&self, reader: &mut Reader<'_>, brackets: u32) -> Result<Expr, ParseFault> {
        leaf(reader, brackets)
    }

    fn mark(&self, alloc: Global, sign: Sign, tree: Expr) -> Result<Expr, NoMemory>
        ensures { IfOk result (λ t. expression t ≡ marks.mark sign (expression tree)) }
    {
        let inner = Box::new(alloc, tree)?;
        Ok(match sign {
            Sign::Neg => Expr::Neg(inner),
            Sign::Not => Expr::Not(inner),
        })
    }

    fn join(&self, alloc: Global, op: BinOp, left: Expr, right: Expr) -> Result<Expr, NoMemory>
        ensures { IfOk result (λ t. expression t ≡ marks.join op (expression left) (expression right)) }
    {
        let left = Box::new(alloc, left)?;
        let right = Box::new(alloc, right)?;
        Ok(Expr::Bin { op, left, right })
    }
}
