// The statements of any language read, and its blocks.
ghost use Rattle.std.specs.Prelude.{◌≡◌, map, Some, IfOk};
ghost use Rattle.text_forms.specs.Gives.{Gives, Makes};
ghost use Rattle.text_blocks.specs.Exact.{AreExact};
ghost use Rattle.text_blocks.specs.Reading.{rest_at, stmt_at, stmts_at, block_at, else_at, branch_at, loop_at};
ghost use Rattle.text_blocks.specs.Statements.{Style, Holes};
ghost use Rattle.text_blocks.specs.Parts.{optional};

use crate::Opening;
use river_base::NoMemory;
use std::alloc::Global;
use text_forms::{ParseFault, Reader, closed};
use text_tokens::Symbol;

/// A language's statements and blocks: what it hands in for them to be read.
pub trait Blocks {
    /// The condition of a branch.
    type Condition: Drop;

    /// The head of a loop.
    type Head: Drop;

    type Statement: Drop;

    type Block: Drop;

    /// Conditions, heads, statements and blocks without their places in memory.
    ghost ConditionTree: { Type 0 };

    ghost HeadTree: { Type 0 };

    ghost StatementTree: { Type 0 };

    ghost BlockTree: { Type 0 };

    ghost condition_tree: { Self.Condition → ConditionTree };

    ghost head_tree: { Self.Head → HeadTree };

    ghost statement: { Self.Statement → StatementTree };

    ghost block: { Self.Block → BlockTree };

    ghost style: { Self → Style ConditionTree HeadTree StatementTree BlockTree };

    ghost holes: { Self → Holes ConditionTree HeadTree StatementTree };

    /// What a statement is that begins with this word.
    fn opening(&self, word: &[u8]) -> Opening
        ensures { result ≡ (style self.now).opening word.now };

    /// The condition of a branch.
    fn condition(
        &self,
        reader: &mut Reader<'_>,
        alloc: Global,
        brackets: u32,
    ) -> Result<Self::Condition, ParseFault>
        ensures { Gives condition_tree result reader.new ((style self.now).condition brackets reader.old) };

    /// The head of a loop behind this word.
    fn head(
        &self,
        reader: &mut Reader<'_>,
        alloc: Global,
        brackets: u32,
        word: &[u8],
    ) -> Result<Self::Head, ParseFault>
        ensures { Gives head_tree result reader.new ((style self.now).head brackets word.now reader.old) };

    /// What stands behind this word of a statement without blocks.
    fn plain(
        &self,
        reader: &mut Reader<'_>,
        alloc: Global,
        brackets: u32,
        word: &[u8],
    ) -> Result<Self::Statement, ParseFault>
        ensures { Gives statement result reader.new ((style self.now).plain brackets word.now reader.old) };

    /// A branch of these parts.
    fn branch(
        &self,
        alloc: Global,
        cond: Self::Condition,
        yes: Self::Block,
        no: Option<Self::Block>,
    ) -> Result<Self::Statement, NoMemory>
        ensures { IfOk result (λ made. statement made ≡ (style self.now).branch (condition_tree cond) (block yes) (optional block no)) };

    /// A loop of these parts.
    fn repeat(
        &self,
        alloc: Global,
        head: Self::Head,
        body: Self::Block,
    ) -> Result<Self::Statement, NoMemory>
        ensures { IfOk result (λ made. statement made ≡ (style self.now).loop (head_tree head) (block body)) };

    /// A block of these statements.
    fn block(
        &self,
        alloc: Global,
        statements: Vec<Self::Statement>,
    ) -> Result<Self::Block, NoMemory>
        ensures { IfOk result (λ made. block made ≡ (style self.now).block (map statement statements.items)) };

    ghost exact: { (l : Self) → AreExact (style l) (holes l) };
}

// A branch of these parts.
fn made_branch<L: Blocks>(
    language: &L,
    alloc: Global,
    cond: L::Condition,
    yes: L::Block,
    no: Option<L::Block>,
) -> Result<L::Statement, ParseFault>
    ensures { Makes L.statement result (Some ((L.style language.now).branch (L.condition_tree cond) (L.block yes) (optional L.block no))) }
{
    Ok(language.branch(alloc, cond, yes, no)?)
}

// A loop of these parts.
fn made_loop<L: Blocks>(
    language: &L,
    alloc: Global,
    head: L::Head,
    body: L::Block,
) -> Result<L::Statement, ParseFault>
    ensures { Makes L.statement result (Some ((L.style language.now).loop (L.head_tree head) (L.block body))) }
{
    Ok(language.repeat(alloc, head, body)?)
}

// A block of these statements.
fn made_block<L: Blocks>(
    language: &L,
    alloc: Global,
    statements: Vec<L::Statement>,
) -> Result<L::Block, ParseFault>
    ensures { Makes L.block result (Some ((L.style language.now).block (map L.statement statements.items))) }
{
    Ok(language.block(alloc, statements)?)
}

// A statement, in which branches and loops together may nest so deep.
#[cycle(block)]
#[tactic(auto, unfolding(crate::specs::Reading::stmt_at))]
fn statement<L: Blocks>(
    language: &L,
    reader: &mut Reader<'_>,
    alloc: Global,
    nest: u32,
    brackets: u32,
) -> Result<L::Statement, ParseFault>
    ensures { Gives L.statement result reader.new (stmt_at (L.style language.now) nest brackets reader.old) }
{
    let word = reader.name()?;
    rest(language, reader, alloc, nest, brackets, word)
}

/// What stands behind this word of a statement, in which branches and loops together may nest so
/// deep, and so many more brackets may be open.
///
/// # Errors
///
/// `Syntax` where it is not in the grammar, `NoMemory` where there is no memory.
#[cycle(block)]
#[tactic(auto, using(crate::proofs::Steps::rests))]
pub fn rest<L: Blocks>(
    language: &L,
    reader: &mut Reader<'_>,
    alloc: Global,
    nest: u32,
    brackets: u32,
    word: &[u8],
) -> Result<L::Statement, ParseFault>
    ensures { Gives L.statement result reader.new (rest_at (L.style language.now) nest brackets word.now reader.old) }
{
    match language.opening(word) {
        Opening::Branch => branch(language, reader, alloc, nest, brackets),
        Opening::Loop => repeat(language, reader, alloc, nest, brackets, word),
        Opening::Plain => language.plain(reader, alloc, brackets, word),
    }
}

// What stands behind the word of a branch.
#[cycle(block)]
#[tactic(auto, unfolding(crate::specs::Reading::branch_of), using(crate::proofs::Steps::nests))]
fn branch<L: Blocks>(
    language: &L,
    reader: &mut Reader<'_>,
    alloc: Global,
    nest: u32,
    brackets: u32,
) -> Result<L::Statement, ParseFault>
    ensures { Gives L.statement result reader.new (branch_at (L.style language.now) nest brackets reader.old) }
{
    if nest == 0 {
        return Err(ParseFault::Syntax);
    }
    let cond = language.condition(reader, alloc, brackets)?;
    let yes = block(language, reader, alloc, nest - 1, brackets)?;
    let no = otherwise(language, reader, alloc, nest - 1, brackets)?;
    made_branch(language, alloc, cond, yes, no)
}

// What stands behind the word of a loop.
#[cycle(block)]
#[tactic(auto, unfolding(crate::specs::Reading::loop_of), using(crate::proofs::Steps::nests))]
fn repeat<L: Blocks>(
    language: &L,
    reader: &mut Reader<'_>,
    alloc: Global,
    nest: u32,
    brackets: u32,
    word: &[u8],
) -> Result<L::Statement, ParseFault>
    ensures { Gives L.statement result reader.new (loop_at (L.style language.now) nest brackets word.now reader.old) }
{
    if nest == 0 {
        return Err(ParseFault::Syntax);
    }
    let head = language.head(reader, alloc, brackets, word)?;
    let body = block(language, reader, alloc, nest - 1, brackets)?;
    made_loop(language, alloc, head, body)
}

// `else` and a block, or nothing.
#[cycle(block)]
#[tactic(auto, unfolding(crate::specs::Reading::else_at))]
fn otherwise<L: Blocks>(
    language: &L,
    reader: &mut Reader<'_>,
    alloc: Global,
    nest: u32,
    brackets: u32,
) -> Result<Option<L::Block>, ParseFault>
    ensures { Gives (optional L.block) result reader.new (else_at (block_at (L.style language.now) nest) brackets reader.old) }
{
    if !reader.is_at_word(b"else") {
        return Ok(None);
    }
    reader.skip();
    Ok(Some(block(language, reader, alloc, nest, brackets)?))
}

/// `{` statements `}`, in which branches and loops together may nest so deep, and so many more
/// brackets may be open.
///
/// # Errors
///
/// `Syntax` where no block comes next, `NoMemory` where there is no memory.
#[cycle(block)]
#[tactic(auto, unfolding(crate::specs::Reading::block_at))]
pub fn block<L: Blocks>(
    language: &L,
    reader: &mut Reader<'_>,
    alloc: Global,
    nest: u32,
    brackets: u32,
) -> Result<L::Block, ParseFault>
    ensures { Gives L.block result reader.new (block_at (L.style language.now) nest brackets reader.old) }
{
    let inner = reader.opens(Symbol::OpenBrace, brackets)?;
    let block = statements(language, reader, alloc, nest, inner)?;
    closed(reader, block, Symbol::CloseBrace)
}

// Statements up to a closing brace.
#[cycle(block)]
#[tactic(auto, using(crate::proofs::Steps::loops))]
fn statements<L: Blocks>(
    language: &L,
    reader: &mut Reader<'_>,
    alloc: Global,
    nest: u32,
    brackets: u32,
) -> Result<L::Block, ParseFault>
    ensures { Gives L.block result reader.new (stmts_at (L.style language.now) nest brackets reader.old) }
{
    let mut list = Vec::new(alloc);
    'items: while !reader.is_at(Symbol::CloseBrace) {
        list.push(statement(language, reader, alloc, nest, brackets)?)?;
    }
    made_block(language, alloc, list)
}
