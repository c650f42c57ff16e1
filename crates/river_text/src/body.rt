// Bodies of work code read.
ghost use Rattle.std.specs.Prelude.{◌≡◌, IfOk, map};
ghost use Rattle.text_forms.specs.Gives.{Gives};
ghost use Rattle.text_blocks.specs.Parts.{optional};
ghost use Rattle.work_code.specs.Steps.{step, steps, in_turn};
ghost use Rattle.work_code.specs.Term.{term};
ghost use Rattle.river_text.specs.Bodies.{set_at, push_at, plain_at, condition_at, opening, style, or_done, body_at};

use crate::term::{River, exprs};
use river_base::NoMemory;
use std::alloc::Global;
use text_blocks::{Blocks, Opening, ended, place, round};
use text_forms::{ParseFault, Reader, closed, is};
use text_tokens::Symbol;
use work_code::{Body, Expr, Stmt, Stmts};

// What stands behind `slot`.
#[tactic(auto, unfolding(crate::specs::Bodies::set_at))]
fn set(reader: &mut Reader<'_>, alloc: Global, brackets: u32) -> Result<Stmt, ParseFault>
    ensures { Gives step result reader.new (set_at brackets reader.old) }
{
    let slot = place(reader, brackets)?;
    reader.expect(&[Symbol::Assign])?;
    let value = ended(&River, reader, alloc, brackets)?;
    Ok(Stmt::Set { slot, value })
}

// What stands behind `push`.
#[tactic(auto, unfolding(crate::specs::Bodies::push_at))]
fn push(reader: &mut Reader<'_>, alloc: Global, brackets: u32) -> Result<Stmt, ParseFault>
    ensures { Gives step result reader.new (push_at brackets reader.old) }
{
    let port = reader.count()?;
    let values = exprs(reader, alloc, brackets)?;
    closed(reader, Stmt::Push { port, values }, Symbol::Semicolon)
}

// What stands behind the first word of a statement that is no `if`.
#[tactic(auto, unfolding(crate::specs::Bodies::plain_at))]
fn plain(
    reader: &mut Reader<'_>,
    alloc: Global,
    brackets: u32,
    word: &[u8],
) -> Result<Stmt, ParseFault>
    ensures { Gives step result reader.new (plain_at brackets word.now reader.old) }
{
    if is(word, b"slot") {
        return set(reader, alloc, brackets);
    }
    if is(word, b"push") {
        return push(reader, alloc, brackets);
    }
    Err(ParseFault::Syntax)
}

// The statements behind `else`, or none.
#[tactic(auto, using(crate::proofs::Trees::trees))]
fn or_none(alloc: Global, no: Option<Stmts>) -> Stmts
    ensures { steps result ≡ or_done (optional steps no) }
{
    match no {
        Some(no) => no,
        None => Stmts::new(alloc),
    }
}

// These statements, one after another.
#[tactic(auto, using(crate::proofs::Trees::trees))]
fn gathered(alloc: Global, list: Vec<Stmt>) -> Result<Stmts, NoMemory>
    ensures { IfOk result (λ all. steps all ≡ in_turn (map step list.items)) }
{
    let mut all = Stmts::new(alloc);
    for one in list {
        all.push(one)?;
    }
    Ok(all)
}

impl Blocks for River {
    ghost use Rattle.work_code.specs.Steps.{Step, Steps};
    ghost use Rattle.work_code.specs.Term.{Term};
    ghost use Rattle.river_text.specs.Bodies.{holes};
    ghost use Rattle.river_text.specs.ExactBodies.{exact-river};

    type Condition = Expr;

    type Head = Stmt;

    type Statement = Stmt;

    type Block = Stmts;

    ghost ConditionTree = { Term };

    ghost HeadTree = { Step };

    ghost StatementTree = { Step };

    ghost BlockTree = { Steps };

    ghost condition_tree = { term };

    ghost head_tree = { step };

    ghost statement = { step };

    ghost block = { steps };

    ghost style = { λ _. style };

    ghost holes = { λ _. holes };

    ghost exact = { λ _. exact-river };

    fn opening(&self, word: &[u8]) -> Opening
        ensures { result ≡ opening word.now }
    {
        if is(word, b"if") {
            Opening::Branch
        } else {
            Opening::Plain
        }
    }

    fn condition(
        &self,
        reader: &mut Reader<'_>,
        alloc: Global,
        brackets: u32,
    ) -> Result<Expr, ParseFault>
        ensures { Gives term result reader.new (condition_at brackets reader.old) }
    {
        round(self, reader, alloc, brackets)
    }

    fn head(
        &self,
        _reader: &mut Reader<'_>,
        _alloc: Global,
        _brackets: u32,
        _word: &[u8],
    ) -> Result<Stmt, ParseFault> {
        Err(ParseFault::Syntax)
    }

    fn plain(
        &self,
        reader: &mut Reader<'_>,
        alloc: Global,
        brackets: u32,
        word: &[u8],
    ) -> Result<Stmt, ParseFault> {
        plain(reader, alloc, brackets, word)
    }

    #[tactic(auto, using(crate::proofs::Trees::trees))]
    fn branch(
        &self,
        alloc: Global,
        cond: Expr,
        yes: Stmts,
        no: Option<Stmts>,
    ) -> Result<Stmt, NoMemory>
        ensures { IfOk result (λ made. step made ≡ style.branch (term cond) (steps yes) (optional steps no)) }
    {
        let no = or_none(alloc, no);
        Ok(Stmt::If { cond, yes, no })
    }

    fn repeat(&self, _alloc: Global, head: Stmt, _body: Stmts) -> Result<Stmt, NoMemory>
        ensures { IfOk result (λ made. step made ≡ step head) }
    {
        Ok(head)
    }

    fn block(&self, alloc: Global, statements: Vec<Stmt>) -> Result<Stmts, NoMemory>
        ensures { IfOk result (λ made. steps made ≡ in_turn (map step statements.items)) }
    {
        gathered(alloc, statements)
    }
}

/// `{` statements `}`, in which `if` nests at most 16 deep.
#[tactic(auto, unfolding(crate::specs::Bodies::body_at))]
pub fn body(reader: &mut Reader<'_>, alloc: Global, brackets: u32) -> Result<Body, ParseFault>
    ensures { Gives steps result reader.new (body_at brackets reader.old) }
{
    let stmts = text_blocks::block(&River, reader, alloc, 16, brackets)?;
    Ok(Body::of(alloc, stmts)?)
}
