// Expressions read.
ghost use Rattle.std.specs.Prelude.{◌≡◌, IfOk, is_some, if◌then◌else◌};
ghost use Rattle.text_forms.specs.ReadLevels.{first};
ghost use Rattle.text_forms.specs.Tail.{tail};
ghost use Rattle.streamit_text.specs.Expressions.{sign_at, call_at};
ghost use Rattle.streamit_text.specs.Tree.{expression};

use crate::{Expr, Leaves};
use river_base::NoMemory;
use std::alloc::Global;
use text_blocks::{Terms, take_sign};
use text_forms::{ParseFault, Reader, is};
use text_tokens::Token;
use work_code::BinOp;

/// What stands before an expression.
#[derive(Clone, Copy)]
pub enum Sign {
    /// `-`
    Neg,
    /// `!`
    Not,
    /// `peek`, before brackets.
    Peek,
}

// Passes over the sign that comes next, if one does.
#[tactic(auto, using(crate::proofs::Signs::shared))]
fn own_sign(reader: &mut Reader<'_>) -> Option<Sign>
    ensures found { result ≡ first sign_at reader.old }
    ensures rest { reader.new ≡ (if is_some result then tail reader.old else reader.old) }
{
    match take_sign(reader)? {
        text_blocks::Sign::Neg => Some(Sign::Neg),
        text_blocks::Sign::Not => Some(Sign::Not),
    }
}

// Passes over `peek`, where it comes next.
fn own_call(reader: &mut Reader<'_>) -> Option<Sign>
    ensures found { result ≡ first call_at reader.old }
    ensures rest { reader.new ≡ (if is_some result then tail reader.old else reader.old) }
{
    let Some(Token::Name(text)) = reader.peek() else {
        return None;
    };
    if is(text, b"peek") {
        reader.skip();
        Some(Sign::Peek)
    } else {
        None
    }
}

/// The language with these leaves, for the readers of expressions and of statements of any language.
pub struct StreamitGrammar<L> {
    pub leaves: L,
}

impl<L: Leaves> Terms for StreamitGrammar<L> {
    ghost use Rattle.streamit_text.specs.Expressions.{marks, is_deeper};
    ghost use Rattle.streamit_text.specs.Tree.{Expression, expression};

    type Tree = Expr;

    type Mark = Sign;

    ghost Plain = { Expression };

    ghost view = { expression };

    ghost marks = { λ _. marks };

    ghost leaf = { λ d. L.leaf d.leaves };

    ghost deeper = { λ _. is_deeper };

    fn sign(&self, reader: &mut Reader<'_>) -> Option<Sign> {
        own_sign(reader)
    }

    fn call(&self, reader: &mut Reader<'_>) -> Option<Sign> {
        own_call(reader)
    }

    fn leaf(&self, reader: &mut Reader<'_>, brackets: u32) -> Result<Expr, ParseFault> {
        self.leaves.leaf(reader, brackets)
    }

    fn mark(&self, alloc: Global, sign: Sign, tree: Expr) -> Result<Expr, NoMemory>
        ensures { IfOk result (λ t. expression t ≡ marks.mark sign (expression tree)) }
    {
        let inner = Box::new(alloc, tree)?;
        Ok(match sign {
            Sign::Neg => Expr::Neg(inner),
            Sign::Not => Expr::Not(inner),
            Sign::Peek => Expr::Peek(inner),
        })
    }

    fn join(&self, alloc: Global, op: BinOp, left: Expr, right: Expr) -> Result<Expr, NoMemory>
        ensures { IfOk result (λ t. expression t ≡ marks.join op (expression left) (expression right)) }
    {
        let left = Box::new(alloc, left)?;
        let right = Box::new(alloc, right)?;
        Ok(Expr::Bin { op, left, right })
    }
}
