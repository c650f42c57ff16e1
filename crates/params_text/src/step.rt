// Steps read.
ghost use Rattle.std.specs.Prelude.{◌≡◌, IfOk, map};
ghost use Rattle.text_blocks.specs.Parts.{optional};
ghost use Rattle.text_forms.specs.Gives.{Gives};
ghost use Rattle.streamit_text.specs.View.{head_of};
ghost use Rattle.params_text.specs.Program.{expressions, step_of, steps_of, steps_in_turn};
ghost use Rattle.params_text.specs.Steps.{made_add, add_at, step_head_at, step_after, opening, looped, style};
ghost use Rattle.params_text.specs.Reading.{step_at, pipe_at, steps_at};

use crate::constant::{constants, stream_name};
use crate::{Step, Steps};
use river_base::{Name, NoMemory};
use std::alloc::Global;
use streamit_text::{Expr, ForHead, Plain, StreamitGrammar, is_still, round_head};
use text_blocks::{Blocks, Opening, rest};
use text_forms::{ParseFault, Reader, closed, is};
use text_tokens::Symbol;

/// Steps, for the reader of the statements of any language.
pub struct StepWords;

// The step that adds a stream under these arguments.
#[tactic(auto, using(crate::proofs::StepTrees::steps))]
fn added(alloc: Global, name: Name, args: Option<Vec<Expr>>) -> Step
    ensures { step_of result ≡ made_add (name, optional expressions args) }
{
    match args {
        Some(args) => Step::Add { name, args },
        None => Step::Add {
            name,
            args: Vec::new(alloc),
        },
    }
}

// What stands behind `add`.
#[tactic(auto, unfolding(crate::specs::Steps::add_at))]
fn add(reader: &mut Reader<'_>, alloc: Global, brackets: u32) -> Result<Step, ParseFault>
    ensures { Gives step_of result reader.new (add_at brackets reader.old) }
{
    let name = stream_name(reader)?;
    let args = constants(reader, alloc, brackets)?;
    closed(reader, added(alloc, name, args), Symbol::Semicolon)
}

// The head of a loop of steps, behind `for`.
#[tactic(auto, unfolding(crate::specs::Steps::step_head_at))]
fn step_head(reader: &mut Reader<'_>, alloc: Global, brackets: u32) -> Result<ForHead, ParseFault>
    ensures { Gives head_of result reader.new (step_head_at brackets reader.old) }
{
    let head = round_head(&StreamitGrammar { leaves: Plain }, reader, alloc, brackets)?;
    if is_still(&head.low) && is_still(&head.upper.high) {
        Ok(head)
    } else {
        Err(ParseFault::Syntax)
    }
}

impl Blocks for StepWords {
    ghost use Rattle.streamit_text.specs.Blocks.{Head};
    ghost use Rattle.streamit_text.specs.View.{head_of};
    ghost use Rattle.params_text.specs.Program.{Step, Steps, step_of, steps_of};
    ghost use Rattle.params_text.specs.Steps.{style, holes};
    ghost use Rattle.params_text.specs.ExactSteps.{exact-steps_are};

    // There are no branches: no word opens one, and no text is the condition of one.
    type Condition = Step;

    type Head = ForHead;

    type Statement = Step;

    type Block = Steps;

    ghost ConditionTree = { Step };

    ghost HeadTree = { Head };

    ghost StatementTree = { Step };

    ghost BlockTree = { Steps };

    ghost condition_tree = { step_of };

    ghost head_tree = { head_of };

    ghost statement = { step_of };

    ghost block = { steps_of };

    ghost style = { λ _. style };

    ghost holes = { λ _. holes };

    ghost exact = { λ _. exact-steps_are };

    fn opening(&self, word: &[u8]) -> Opening
        ensures { result ≡ opening word.now }
    {
        if is(word, b"for") {
            Opening::Loop
        } else {
            Opening::Plain
        }
    }

    fn condition(
        &self,
        _reader: &mut Reader<'_>,
        _alloc: Global,
        _brackets: u32,
    ) -> Result<Step, ParseFault> {
        Err(ParseFault::Syntax)
    }

    fn head(
        &self,
        reader: &mut Reader<'_>,
        alloc: Global,
        brackets: u32,
        _word: &[u8],
    ) -> Result<ForHead, ParseFault>
        ensures { Gives head_of result reader.new (step_head_at brackets reader.old) }
    {
        step_head(reader, alloc, brackets)
    }

    #[tactic(auto, unfolding(crate::specs::Steps::step_after))]
    fn plain(
        &self,
        reader: &mut Reader<'_>,
        alloc: Global,
        brackets: u32,
        word: &[u8],
    ) -> Result<Step, ParseFault>
        ensures { Gives step_of result reader.new (step_after brackets word.now reader.old) }
    {
        if is(word, b"add") {
            add(reader, alloc, brackets)
        } else {
            Err(ParseFault::Syntax)
        }
    }

    fn branch(
        &self,
        _alloc: Global,
        cond: Step,
        _yes: Steps,
        _no: Option<Steps>,
    ) -> Result<Step, NoMemory>
        ensures { IfOk result (λ made. step_of made ≡ step_of cond) }
    {
        Ok(cond)
    }

    #[tactic(auto, using(crate::proofs::StepTrees::steps))]
    fn repeat(&self, _alloc: Global, head: ForHead, body: Steps) -> Result<Step, NoMemory>
        ensures { IfOk result (λ made. step_of made ≡ looped (head_of head) (steps_of body)) }
    {
        Ok(Step::Loop {
            name: head.name,
            low: head.low,
            until: head.upper.until,
            high: head.upper.high,
            steps: body,
        })
    }

    #[tactic(auto, using(crate::proofs::StepTrees::steps))]
    fn block(&self, _alloc: Global, statements: Vec<Step>) -> Result<Steps, NoMemory>
        ensures { IfOk result (λ made. steps_of made ≡ steps_in_turn (map step_of statements.items)) }
    {
        Ok(Steps { items: statements })
    }
}

// A step, in which loops nest at most 16 deep.
#[tactic(auto, unfolding(crate::specs::Reading::step_at, text_blocks::specs::Reading::stmt_at))]
fn step(reader: &mut Reader<'_>, alloc: Global, brackets: u32) -> Result<Step, ParseFault>
    ensures { Gives step_of result reader.new (step_at brackets reader.old) }
{
    let word = reader.name()?;
    rest(&StepWords, reader, alloc, 16, brackets, word)
}

/// `{` steps `}`
#[tactic(auto, unfolding(crate::specs::Reading::pipe_at))]
pub(crate) fn pipe(
    reader: &mut Reader<'_>,
    alloc: Global,
    brackets: u32,
) -> Result<Steps, ParseFault>
    ensures { Gives steps_of result reader.new (pipe_at brackets reader.old) }
{
    text_blocks::block(&StepWords, reader, alloc, 16, brackets)
}

/// Steps up to a joiner.
#[tactic(auto, unfolding(crate::specs::Reading::steps_at), using(crate::proofs::Lists::steps))]
pub(crate) fn steps(
    reader: &mut Reader<'_>,
    alloc: Global,
    brackets: u32,
) -> Result<Vec<Step>, ParseFault>
    ensures { Gives (λ list. map step_of list.items) result reader.new (steps_at brackets reader.old) }
{
    let mut list = Vec::new(alloc);
    'items: while !reader.is_at_word(b"join") {
        list.push(step(reader, alloc, brackets)?)?;
    }
    Ok(list)
}
