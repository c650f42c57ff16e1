// Statements read.
ghost use Rattle.std.specs.Prelude.{◌≡◌, IfOk, map};
ghost use Rattle.text_forms.specs.Gives.{Gives};
ghost use Rattle.text_blocks.specs.Parts.{optional};
ghost use Rattle.saw_text.specs.Blocks.{declare_at, assign_at, indexes_at, weight_at, emit_at, named_after, plain_at};
ghost use Rattle.saw_text.specs.Tree.{expression, statement, block, in_turn};
ghost use Rattle.saw_text.specs.View.{expressions};

use crate::names::{user, user_name};
use crate::term::SawzallGrammar;
use crate::{Block, Expr, Statement};
use river_base::{Name, NoMemory};
use std::alloc::Global;
use text_blocks::{Blocks, Opening, ended, first_value, round, square, term};
use text_forms::{ParseFault, Reader, closed, is};
use text_tokens::Symbol;

/// What stands behind `NAME: int`.
#[tactic(auto, unfolding(crate::specs::Blocks::declare_at), using(crate::proofs::Trees::trees))]
pub(crate) fn declare(
    reader: &mut Reader<'_>,
    alloc: Global,
    brackets: u32,
    name: Name,
) -> Result<Statement, ParseFault>
    ensures { Gives statement result reader.new (declare_at name brackets reader.old) }
{
    let value = first_value(&SawzallGrammar, reader, alloc, brackets)?;
    closed(
        reader,
        Statement::Declare { name, value },
        Symbol::Semicolon,
    )
}

/// What stands behind the name of an assignment.
#[tactic(auto, unfolding(crate::specs::Blocks::assign_at), using(crate::proofs::Trees::trees))]
pub(crate) fn assign(
    reader: &mut Reader<'_>,
    alloc: Global,
    brackets: u32,
    name: Name,
) -> Result<Statement, ParseFault>
    ensures { Gives statement result reader.new (assign_at name brackets reader.old) }
{
    reader.expect(&[Symbol::Assign])?;
    let value = ended(&SawzallGrammar, reader, alloc, brackets)?;
    Ok(Statement::Assign { name, value })
}

// Expressions in square brackets.
#[tactic(auto, unfolding(crate::specs::Blocks::indexes_at), using(crate::proofs::Lists::indexes))]
fn indexes(reader: &mut Reader<'_>, alloc: Global, brackets: u32) -> Result<Vec<Expr>, ParseFault>
    ensures { Gives (λ es. expressions es.items) result reader.new (indexes_at brackets reader.old) }
{
    let mut list = Vec::new(alloc);
    'items: while reader.is_at(Symbol::OpenBracket) {
        list.push(square(&SawzallGrammar, reader, alloc, brackets)?)?;
    }
    Ok(list)
}

// `weight e`, or nothing.
#[tactic(auto, unfolding(crate::specs::Blocks::weight_at))]
fn weight(reader: &mut Reader<'_>, alloc: Global, brackets: u32) -> Result<Option<Expr>, ParseFault>
    ensures { Gives (optional expression) result reader.new (weight_at brackets reader.old) }
{
    if !reader.is_at_word(b"weight") {
        return Ok(None);
    }
    reader.skip();
    Ok(Some(term(&SawzallGrammar, reader, alloc, brackets)?))
}

// What stands behind `emit`.
#[tactic(auto, unfolding(crate::specs::Blocks::emit_at), using(crate::proofs::Trees::trees))]
fn emit(reader: &mut Reader<'_>, alloc: Global, brackets: u32) -> Result<Statement, ParseFault>
    ensures { Gives statement result reader.new (emit_at brackets reader.old) }
{
    let table = user_name(reader)?;
    let indexes = indexes(reader, alloc, brackets)?;
    reader.expect(&[Symbol::Less, Symbol::Minus])?;
    let value = term(&SawzallGrammar, reader, alloc, brackets)?;
    let weight = weight(reader, alloc, brackets)?;
    let emit = Statement::Emit {
        table,
        indexes,
        value,
        weight,
    };
    closed(reader, emit, Symbol::Semicolon)
}

// What stands behind the name of a local.
#[tactic(auto, unfolding(crate::specs::Blocks::named_after))]
fn named(
    reader: &mut Reader<'_>,
    alloc: Global,
    brackets: u32,
    name: Name,
) -> Result<Statement, ParseFault>
    ensures { Gives statement result reader.new (named_after name brackets reader.old) }
{
    if !reader.is_at(Symbol::Colon) {
        return assign(reader, alloc, brackets, name);
    }
    reader.expect(&[Symbol::Colon])?;
    reader.word(b"int")?;
    declare(reader, alloc, brackets, name)
}

// What stands behind the first word of a statement that is no `if`.
#[tactic(auto, unfolding(crate::specs::Blocks::plain_at))]
fn plain(
    reader: &mut Reader<'_>,
    alloc: Global,
    brackets: u32,
    word: &[u8],
) -> Result<Statement, ParseFault>
    ensures { Gives statement result reader.new (plain_at brackets word.now reader.old) }
{
    if is(word, b"emit") {
        return emit(reader, alloc, brackets);
    }
    match user(word) {
        Some(name) => named(reader, alloc, brackets, name),
        None => Err(ParseFault::Syntax),
    }
}

impl Blocks for SawzallGrammar {
    ghost use Rattle.saw_text.specs.Blocks.{style, holes, opening, condition_at};
    ghost use Rattle.saw_text.specs.Tree.{Expression, Statement, Block, expression, statement, block};
    ghost use Rattle.saw_text.specs.ExactStatements.{exact-sawzall};

    type Condition = Expr;

    // There are no loops: no word opens one, and no text is the head of one.
    type Head = Statement;

    type Statement = Statement;

    type Block = Block;

    ghost ConditionTree = { Expression };

    ghost HeadTree = { Statement };

    ghost StatementTree = { Statement };

    ghost BlockTree = { Block };

    ghost condition_tree = { expression };

    ghost head_tree = { statement };

    ghost statement = { statement };

    ghost block = { block };

    ghost style = { λ _. style };

    ghost holes = { λ _. holes };

    ghost exact = { λ _. exact-sawzall };

    fn opening(&self, word: &[u8]) -> Opening
        ensures { result ≡ opening word.now }
    {
        if is(word, b"if") {
            Opening::Branch
        } else {
            Opening::Plain
        }
    }

    fn condition(
        &self,
        reader: &mut Reader<'_>,
        alloc: Global,
        brackets: u32,
    ) -> Result<Expr, ParseFault>
        ensures { Gives expression result reader.new (condition_at brackets reader.old) }
    {
        round(self, reader, alloc, brackets)
    }

    fn head(
        &self,
        _reader: &mut Reader<'_>,
        _alloc: Global,
        _brackets: u32,
        _word: &[u8],
    ) -> Result<Statement, ParseFault> {
        Err(ParseFault::Syntax)
    }

    fn plain(
        &self,
        reader: &mut Reader<'_>,
        alloc: Global,
        brackets: u32,
        word: &[u8],
    ) -> Result<Statement, ParseFault> {
        plain(reader, alloc, brackets, word)
    }

    #[tactic(auto, using(crate::proofs::Trees::trees))]
    fn branch(
        &self,
        _alloc: Global,
        cond: Expr,
        yes: Block,
        no: Option<Block>,
    ) -> Result<Statement, NoMemory>
        ensures { IfOk result (λ made. statement made ≡ style.branch (expression cond) (block yes) (optional block no)) }
    {
        Ok(Statement::If { cond, yes, no })
    }

    fn repeat(&self, _alloc: Global, head: Statement, _body: Block) -> Result<Statement, NoMemory>
        ensures { IfOk result (λ made. statement made ≡ statement head) }
    {
        Ok(head)
    }

    #[tactic(auto, using(crate::proofs::Trees::trees))]
    fn block(&self, _alloc: Global, statements: Vec<Statement>) -> Result<Block, NoMemory>
        ensures { IfOk result (λ made. block made ≡ in_turn (map statement statements.items)) }
    {
        Ok(Block { statements })
    }
}
