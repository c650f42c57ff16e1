// Expressions read.
ghost use Rattle.std.specs.Prelude.{◌≡◌, IfOk};
ghost use Rattle.text_forms.specs.Gives.{Gives};
ghost use Rattle.work_code.specs.Term.{term, terms, depth_of};
ghost use Rattle.river_text.specs.Bodies.{some_terms_at, terms_at};
ghost use Rattle.river_text.specs.Expressions.{constant_at, named, leaf_at};

use river_base::NoMemory;
use std::alloc::Global;
use text_blocks::{Sign, Terms, place, take_sign, term};
use text_forms::{ParseFault, Reader, closed, is};
use text_tokens::{Symbol, Token};
use work_code::{BinOp, Expr, Exprs};

// A number as it is written.
#[tactic(auto, unfolding(crate::specs::Expressions::constant_at))]
fn constant(reader: &mut Reader<'_>) -> Result<Expr, ParseFault>
    ensures reads { Gives term result reader.new (constant_at reader.old) }
    ensures depth { IfOk result (λ e. depth_of (term e) ≡ 1) }
{
    Ok(Expr::Const(reader.value()?))
}

// A leaf that begins with this name.
#[tactic(auto, unfolding(crate::specs::Expressions::named))]
fn named(reader: &mut Reader<'_>, brackets: u32, text: &[u8]) -> Result<Expr, ParseFault>
    ensures reads { Gives term result reader.new (named brackets text.now reader.old) }
    ensures depth { IfOk result (λ e. depth_of (term e) ≡ 1) }
{
    if is(text, b"input") {
        return Ok(Expr::Input(place(reader, brackets)?));
    }
    if is(text, b"slot") {
        return Ok(Expr::Slot(place(reader, brackets)?));
    }
    Err(ParseFault::Syntax)
}

// A number, a place of the input or a slot.
fn leaf(reader: &mut Reader<'_>, brackets: u32) -> Result<Expr, ParseFault>
    ensures reads { Gives term result reader.new (leaf_at brackets reader.old) }
    ensures depth { IfOk result (λ e. depth_of (term e) ≡ 1) }
{
    match reader.peek() {
        Some(Token::Number(_)) => constant(reader),
        Some(Token::Name(text)) => {
            reader.skip();
            named(reader, brackets, text)
        }
        _ => Err(ParseFault::Syntax),
    }
}

/// River text, for the readers of expressions and of statements of any language.
pub(crate) struct River;

impl Terms for River {
    ghost use Rattle.work_code.specs.Term.{Term, term};
    ghost use Rattle.river_text.specs.Expressions.{marks, deepest, leaf_at};

    type Tree = Expr;

    type Mark = Sign;

    ghost Plain = { Term };

    ghost view = { term };

    ghost marks = { λ _. marks };

    ghost leaf = { λ _. leaf_at };

    ghost deeper = { λ _. deepest };

    fn sign(&self, reader: &mut Reader<'_>) -> Option<Sign> {
        take_sign(reader)
    }

    #[tactic(auto, using(text_blocks::proofs::Seven::calls))]
    fn call(&self, _reader: &mut Reader<'_>) -> Option<Sign> {
        None
    }

    fn leaf(&self, reader: &mut Reader<'_>, brackets: u32) -> Result<Expr, ParseFault> {
        leaf(reader, brackets)
    }

    fn mark(&self, alloc: Global, sign: Sign, tree: Expr) -> Result<Expr, NoMemory>
        ensures { IfOk result (λ t. term t ≡ marks.mark sign (term tree)) }
    {
        let inner = Box::new(alloc, tree)?;
        Ok(match sign {
            Sign::Neg => Expr::Neg(inner),
            Sign::Not => Expr::Not(inner),
        })
    }

    fn join(&self, alloc: Global, op: BinOp, left: Expr, right: Expr) -> Result<Expr, NoMemory>
        ensures { IfOk result (λ t. term t ≡ marks.join op (term left) (term right)) }
    {
        let left = Box::new(alloc, left)?;
        let right = Box::new(alloc, right)?;
        Ok(Expr::Bin { op, left, right })
    }
}

// Expressions with commas between them, at least one.
#[tactic(auto, unfolding(crate::specs::Bodies::some_terms_at), using(crate::proofs::Steps::term_steps))]
fn some_exprs(reader: &mut Reader<'_>, alloc: Global, brackets: u32) -> Result<Exprs, ParseFault>
    ensures { Gives terms result reader.new (some_terms_at brackets reader.old) }
{
    let mut list = Exprs::new(alloc);
    list.push(term(&River, reader, alloc, brackets)?)?;
    'items: while reader.takes(Symbol::Comma) {
        list.push(term(&River, reader, alloc, brackets)?)?;
    }
    Ok(list)
}

/// `(e, ..)`
#[tactic(auto, unfolding(crate::specs::Bodies::terms_at, text_blocks::specs::Parts::round_at))]
pub(crate) fn exprs(
    reader: &mut Reader<'_>,
    alloc: Global,
    brackets: u32,
) -> Result<Exprs, ParseFault>
    ensures { Gives terms result reader.new (terms_at brackets reader.old) }
{
    let inner = reader.opens(Symbol::Open, brackets)?;
    let list = some_exprs(reader, alloc, inner)?;
    closed(reader, list, Symbol::Close)
}
