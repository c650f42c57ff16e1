// Statements read.
ghost use Rattle.std.specs.Prelude.{◌≡◌, IfOk, map};
ghost use Rattle.text_forms.specs.Gives.{Gives};
ghost use Rattle.text_blocks.specs.Parts.{optional, round_at};
ghost use Rattle.streamit_text.specs.Blocks.{empty_at, declare_at, assign_at, push_at, discard_at, plain_at, upto_at, step_at, upper_at, head_after};
ghost use Rattle.streamit_text.specs.Blocks.{named_head_at, head_at, round_head_at, opening, style};
ghost use Rattle.streamit_text.specs.Expressions.{expr_at};
ghost use Rattle.streamit_text.specs.Reading.{block_at};
ghost use Rattle.streamit_text.specs.Tree.{expression, is_turn, statement, block, in_turn};
ghost use Rattle.streamit_text.specs.View.{head_of, upper_of};

use crate::names::{name, own};
use crate::term::StreamitGrammar;
use crate::{Block, Expr, Leaves, Plain, Statement, Until};
use river_base::{Name, NoMemory};
use std::alloc::Global;
use text_blocks::{Blocks, Opening, ended, first_value, round};
use text_forms::{ParseFault, Reader, closed, is};
use text_tokens::Symbol;

/// `()`
#[tactic(auto, unfolding(crate::specs::Blocks::empty_at, text_blocks::specs::Parts::round_at))]
pub(crate) fn empty(reader: &mut Reader<'_>, brackets: u32) -> Result<(), ParseFault>
    ensures { Gives (λ u. u) result reader.new (empty_at brackets reader.old) }
{
    reader.opens(Symbol::Open, brackets)?;
    reader.expect(&[Symbol::Close])?;
    Ok(())
}

// What stands behind `int`.
#[tactic(auto, unfolding(crate::specs::Blocks::declare_at), using(crate::proofs::Trees::trees))]
fn declare<L: Leaves>(
    language: &StreamitGrammar<L>,
    reader: &mut Reader<'_>,
    alloc: Global,
    brackets: u32,
) -> Result<Statement, ParseFault>
    ensures { Gives statement result reader.new (declare_at (expr_at (L.leaf language.now.leaves)) brackets reader.old) }
{
    let name = name(reader)?;
    let value = first_value(language, reader, alloc, brackets)?;
    closed(
        reader,
        Statement::Declare { name, value },
        Symbol::Semicolon,
    )
}

// What stands behind the name of an assignment.
#[tactic(auto, unfolding(crate::specs::Blocks::assign_at), using(crate::proofs::Trees::trees))]
fn assign<L: Leaves>(
    language: &StreamitGrammar<L>,
    reader: &mut Reader<'_>,
    alloc: Global,
    brackets: u32,
    name: Name,
) -> Result<Statement, ParseFault>
    ensures { Gives statement result reader.new (assign_at (expr_at (L.leaf language.now.leaves)) name brackets reader.old) }
{
    reader.expect(&[Symbol::Assign])?;
    let value = ended(language, reader, alloc, brackets)?;
    Ok(Statement::Assign { name, value })
}

// What stands behind `push`.
#[tactic(auto, unfolding(crate::specs::Blocks::push_at), using(crate::proofs::Trees::trees))]
fn push<L: Leaves>(
    language: &StreamitGrammar<L>,
    reader: &mut Reader<'_>,
    alloc: Global,
    brackets: u32,
) -> Result<Statement, ParseFault>
    ensures { Gives statement result reader.new (push_at (expr_at (L.leaf language.now.leaves)) brackets reader.old) }
{
    let value = round(language, reader, alloc, brackets)?;
    closed(reader, Statement::Push(value), Symbol::Semicolon)
}

// What stands behind `pop`.
#[tactic(auto, unfolding(crate::specs::Blocks::discard_at), using(crate::proofs::Trees::trees))]
fn discard(reader: &mut Reader<'_>, brackets: u32) -> Result<Statement, ParseFault>
    ensures { Gives statement result reader.new (discard_at brackets reader.old) }
{
    empty(reader, brackets)?;
    closed(reader, Statement::Pop, Symbol::Semicolon)
}

// What stands behind the first word of a statement that is no `if` and no `for`.
#[tactic(auto, unfolding(crate::specs::Blocks::plain_at))]
fn plain<L: Leaves>(
    language: &StreamitGrammar<L>,
    reader: &mut Reader<'_>,
    alloc: Global,
    brackets: u32,
    word: &[u8],
) -> Result<Statement, ParseFault>
    ensures { Gives statement result reader.new (plain_at (expr_at (L.leaf language.now.leaves)) brackets word.now reader.old) }
{
    if is(word, b"int") {
        return declare(language, reader, alloc, brackets);
    }
    if is(word, b"push") {
        return push(language, reader, alloc, brackets);
    }
    if is(word, b"pop") {
        return discard(reader, brackets);
    }
    match own(word) {
        Some(name) => assign(language, reader, alloc, brackets, name),
        None => Err(ParseFault::Syntax),
    }
}

/// The head of a `for`.
#[derive(Drop)]
pub struct ForHead {
    pub name: Name,
    pub low: Expr,
    pub upper: Upper,
}

/// The upper bound of a head.
#[derive(Drop)]
pub struct Upper {
    pub until: Until,
    pub high: Expr,
}

// `<`, or `<=`, which stands for one turn more.
#[tactic(auto, unfolding(crate::specs::Blocks::upto_at))]
fn until(reader: &mut Reader<'_>) -> Result<Until, ParseFault>
    ensures { Gives is_turn result reader.new (upto_at reader.old) }
{
    if reader.is_at(Symbol::Less) {
        reader.expect(&[Symbol::Less])?;
        return Ok(Until::Below);
    }
    reader.expect(&[Symbol::LessEqual])?;
    Ok(Until::UpTo)
}

// NAME `++`
#[tactic(auto, unfolding(crate::specs::Blocks::step_at))]
fn step(reader: &mut Reader<'_>, name: Name) -> Result<(), ParseFault>
    ensures { Gives (λ u. u) result reader.new (step_at name reader.old) }
{
    reader.word(name.as_slice())?;
    reader.expect(&[Symbol::Increment])?;
    Ok(())
}

// What stands behind the first semicolon of a head.
#[tactic(auto, unfolding(crate::specs::Blocks::upper_at))]
fn upper_bound<L: Leaves>(
    language: &StreamitGrammar<L>,
    reader: &mut Reader<'_>,
    alloc: Global,
    brackets: u32,
    name: Name,
) -> Result<Upper, ParseFault>
    ensures { Gives upper_of result reader.new (upper_at (expr_at (L.leaf language.now.leaves)) brackets name reader.old) }
{
    reader.word(name.as_slice())?;
    let until = until(reader)?;
    let high = ended(language, reader, alloc, brackets)?;
    step(reader, name)?;
    Ok(Upper { until, high })
}

// What stands behind the first name of a head.
#[tactic(auto, unfolding(crate::specs::Blocks::head_after))]
fn after_name<L: Leaves>(
    language: &StreamitGrammar<L>,
    reader: &mut Reader<'_>,
    alloc: Global,
    brackets: u32,
    name: Name,
) -> Result<ForHead, ParseFault>
    ensures { Gives head_of result reader.new (head_after (expr_at (L.leaf language.now.leaves)) brackets name reader.old) }
{
    reader.expect(&[Symbol::Assign])?;
    let low = ended(language, reader, alloc, brackets)?;
    let upper = upper_bound(language, reader, alloc, brackets, name)?;
    Ok(ForHead { name, low, upper })
}

// The head of a `for`, without its brackets.
#[tactic(auto, unfolding(crate::specs::Blocks::head_at, crate::specs::Blocks::named_head_at))]
fn inner_head<L: Leaves>(
    language: &StreamitGrammar<L>,
    reader: &mut Reader<'_>,
    alloc: Global,
    brackets: u32,
) -> Result<ForHead, ParseFault>
    ensures { Gives head_of result reader.new (head_at (expr_at (L.leaf language.now.leaves)) brackets reader.old) }
{
    reader.word(b"int")?;
    let word = reader.name()?;
    match own(word) {
        Some(name) => after_name(language, reader, alloc, brackets, name),
        None => Err(ParseFault::Syntax),
    }
}

/// The head of a `for` in its brackets.
#[tactic(auto, unfolding(crate::specs::Blocks::round_head_at, text_blocks::specs::Parts::round_at))]
pub fn round_head<L: Leaves>(
    language: &StreamitGrammar<L>,
    reader: &mut Reader<'_>,
    alloc: Global,
    brackets: u32,
) -> Result<ForHead, ParseFault>
    ensures { Gives head_of result reader.new (round_head_at (expr_at (L.leaf language.now.leaves)) brackets reader.old) }
{
    let inner = reader.opens(Symbol::Open, brackets)?;
    let head = inner_head(language, reader, alloc, inner)?;
    closed(reader, head, Symbol::Close)
}

impl<L: Leaves> Blocks for StreamitGrammar<L> {
    ghost use Rattle.streamit_text.specs.Blocks.{Head, holes};
    ghost use Rattle.streamit_text.specs.ExactStatements.{exact-streamit};
    ghost use Rattle.streamit_text.specs.Expressions.{IsExpression};
    ghost use Rattle.streamit_text.specs.Tree.{Expression, Statement, Block};

    type Condition = Expr;

    type Head = ForHead;

    type Statement = Statement;

    type Block = Block;

    ghost ConditionTree = { Expression };

    ghost HeadTree = { Head };

    ghost StatementTree = { Statement };

    ghost BlockTree = { Block };

    ghost condition_tree = { expression };

    ghost head_tree = { head_of };

    ghost statement = { statement };

    ghost block = { block };

    ghost style = { λ d. style (expr_at (L.leaf d.leaves)) };

    ghost holes = { λ d. holes (IsExpression (L.form d.leaves)) };

    ghost exact = { λ d. exact-streamit (L.apart d.leaves) };

    fn opening(&self, word: &[u8]) -> Opening
        ensures { result ≡ opening word.now }
    {
        if is(word, b"if") {
            Opening::Branch
        } else if is(word, b"for") {
            Opening::Loop
        } else {
            Opening::Plain
        }
    }

    fn condition(
        &self,
        reader: &mut Reader<'_>,
        alloc: Global,
        brackets: u32,
    ) -> Result<Expr, ParseFault>
        ensures { Gives expression result reader.new (round_at (expr_at (L.leaf self.now.leaves)) brackets reader.old) }
    {
        round(self, reader, alloc, brackets)
    }

    fn head(
        &self,
        reader: &mut Reader<'_>,
        alloc: Global,
        brackets: u32,
        _word: &[u8],
    ) -> Result<ForHead, ParseFault>
        ensures { Gives head_of result reader.new (round_head_at (expr_at (L.leaf self.now.leaves)) brackets reader.old) }
    {
        round_head(self, reader, alloc, brackets)
    }

    fn plain(
        &self,
        reader: &mut Reader<'_>,
        alloc: Global,
        brackets: u32,
        word: &[u8],
    ) -> Result<Statement, ParseFault>
        ensures { Gives statement result reader.new (plain_at (expr_at (L.leaf self.now.leaves)) brackets word.now reader.old) }
    {
        plain(self, reader, alloc, brackets, word)
    }

    #[tactic(auto, using(crate::proofs::Trees::trees))]
    fn branch(
        &self,
        _alloc: Global,
        cond: Expr,
        yes: Block,
        no: Option<Block>,
    ) -> Result<Statement, NoMemory>
        ensures { IfOk result (λ made. statement made ≡ (style (expr_at (L.leaf self.now.leaves))).branch (expression cond) (block yes) (optional block no)) }
    {
        Ok(Statement::If { cond, yes, no })
    }

    #[tactic(auto, using(crate::proofs::Trees::trees))]
    fn repeat(&self, _alloc: Global, head: ForHead, body: Block) -> Result<Statement, NoMemory>
        ensures { IfOk result (λ made. statement made ≡ (style (expr_at (L.leaf self.now.leaves))).loop (head_of head) (block body)) }
    {
        Ok(Statement::For {
            name: head.name,
            low: head.low,
            until: head.upper.until,
            high: head.upper.high,
            body,
        })
    }

    #[tactic(auto, using(crate::proofs::Trees::trees))]
    fn block(&self, _alloc: Global, statements: Vec<Statement>) -> Result<Block, NoMemory>
        ensures { IfOk result (λ made. block made ≡ in_turn (map statement statements.items)) }
    {
        Ok(Block { items: statements })
    }
}

/// `{` statements `}`, in which `if` and `for` together nest at most 16 deep.
#[tactic(auto, unfolding(crate::specs::Reading::block_at))]
pub(crate) fn block(
    reader: &mut Reader<'_>,
    alloc: Global,
    brackets: u32,
) -> Result<Block, ParseFault>
    ensures { Gives block result reader.new (block_at brackets reader.old) }
{
    text_blocks::block(
        &StreamitGrammar { leaves: Plain },
        reader,
        alloc,
        16,
        brackets,
    )
}
