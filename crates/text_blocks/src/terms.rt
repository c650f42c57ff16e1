// The expressions of a language with the seven levels.
ghost use Rattle.std.specs.Prelude.{◌≡◌, ℕ, IfOk, is_some, if◌then◌else◌};
ghost use Rattle.text_forms.specs.Deep.{IsDeeper};
ghost use Rattle.text_forms.specs.Gives.{Gives};
ghost use Rattle.text_forms.specs.Parse.{Parse};
ghost use Rattle.text_forms.specs.ReadLevels.{first};
ghost use Rattle.text_forms.specs.Tail.{tail};
ghost use Rattle.text_blocks.specs.Seven.{Marks, with_seven, term_at};

use crate::sign::take_operator;
use river_base::NoMemory;
use std::alloc::Global;
use text_forms::{Dialect, Form, ParseFault, Reader, read};
use work_code::BinOp;

/// A language of expressions with the seven levels: what it hands in for them to be read.
pub trait Terms {
    type Tree: Drop;

    /// What stands before an expression.
    type Mark: Copy;

    /// Trees without their places in memory.
    ghost Plain: { Type 0 };

    ghost view: { Self.Tree → Plain };

    /// What its signs are, and how its trees are made.
    ghost marks: { Self → Marks Plain Self.Mark };

    /// How a leaf is read, where so many more brackets may be open.
    ghost leaf: { Self → ℕ → Parse Plain };

    /// Passes over the sign that comes next, if one does.
    fn sign(&self, reader: &mut Reader<'_>) -> Option<Self::Mark>
        ensures found { result ≡ first (marks self.now).sign reader.old }
        ensures rest { reader.new ≡ (if is_some result then tail reader.old else reader.old) };

    /// Passes over what comes next before an expression in brackets, if something does.
    fn call(&self, reader: &mut Reader<'_>) -> Option<Self::Mark>
        ensures found { result ≡ first (marks self.now).call reader.old }
        ensures rest { reader.new ≡ (if is_some result then tail reader.old else reader.old) };

    /// The leaf that has to come next.
    fn leaf(&self, reader: &mut Reader<'_>, brackets: u32) -> Result<Self::Tree, ParseFault>
        ensures reads { Gives view result reader.new (leaf self.now brackets reader.old) }
        ensures depth { IfOk result (λ t. (marks self.now).depth (view t) ≡ 1) };

    /// An expression behind a sign.
    fn mark(
        &self,
        alloc: Global,
        sign: Self::Mark,
        tree: Self::Tree,
    ) -> Result<Self::Tree, NoMemory>
        ensures { IfOk result (λ t. view t ≡ (marks self.now).mark sign (view tree)) };

    /// Two expressions with an operator between them.
    fn join(
        &self,
        alloc: Global,
        op: BinOp,
        left: Self::Tree,
        right: Self::Tree,
    ) -> Result<Self::Tree, NoMemory>
        ensures { IfOk result (λ t. view t ≡ (marks self.now).join op (view left) (view right)) };

    ghost deeper: { (l : Self) → IsDeeper (with_seven (marks l)) };
}

// A language with the seven levels, for the reader of any ladder.
#[derive(Drop)]
struct Seven<'l, L> {
    language: &'l L,
}

impl<'a, 'l, L: Terms> Dialect<Reader<'a>> for Seven<'l, L> {
    ghost use Rattle.std.specs.Prelude.{length, ◌≤◌};
    ghost use Rattle.text_forms.specs.Levels.{level_of, form_of};
    ghost use Rattle.text_blocks.specs.Seven.{with_seven};

    type Tree = L::Tree;

    type Operator = BinOp;

    type Sign = L::Mark;

    ghost Plain = { L.Plain };

    ghost view = { L.view };

    ghost syntax = { λ d. with_seven (L.marks d.language.now) };

    ghost leaf = { λ d. L.leaf d.language.now };

    ghost deeper = { λ d. L.deeper d.language.now };

    fn height(&self) -> u32
        ensures all { result ≡ length (with_seven (L.marks self.now.language.now)).levels }
        ensures few { result ≤ 16 }
    {
        7
    }

    #[tactic(auto, using(crate::proofs::Seven::forms))]
    fn form(&self, level: u32) -> Form
        ensures { result ≡ form_of (level_of (with_seven (L.marks self.now.language.now)).levels level) }
    {
        if level == 0 {
            Form::Prefix
        } else if level < 7 {
            Form::Chain
        } else {
            Form::Once
        }
    }

    fn operator(&self, reader: &mut Reader<'a>, level: u32) -> Option<BinOp> {
        take_operator(reader, level)
    }

    #[tactic(auto, using(crate::proofs::Seven::signs))]
    fn sign(&self, reader: &mut Reader<'a>, level: u32) -> Option<L::Mark> {
        if level == 0 {
            self.language.sign(reader)
        } else {
            None
        }
    }

    fn call(&self, reader: &mut Reader<'a>) -> Option<L::Mark> {
        self.language.call(reader)
    }

    fn leaf(&self, reader: &mut Reader<'a>, brackets: u32) -> Result<L::Tree, ParseFault> {
        self.language.leaf(reader, brackets)
    }

    fn mark(&self, alloc: Global, sign: L::Mark, tree: L::Tree) -> Result<L::Tree, NoMemory>
        ensures { IfOk result (λ t. L.view t ≡ (L.marks self.now.language.now).mark sign (L.view tree)) }
    {
        self.language.mark(alloc, sign, tree)
    }

    fn join(
        &self,
        alloc: Global,
        op: BinOp,
        left: L::Tree,
        right: L::Tree,
    ) -> Result<L::Tree, NoMemory>
        ensures { IfOk result (λ t. L.view t ≡ (L.marks self.now.language.now).join op (L.view left) (L.view right)) }
    {
        self.language.join(alloc, op, left, right)
    }
}

/// The expression that has to come next, at most 64 deep, where `brackets` more brackets may be
/// open. What stands behind it is left.
///
/// # Errors
///
/// `Syntax` where none comes next, `NoMemory` where there is no memory.
#[tactic(auto, unfolding(crate::specs::Seven::term_at))]
pub fn term<L: Terms>(
    language: &L,
    reader: &mut Reader<'_>,
    alloc: Global,
    brackets: u32,
) -> Result<L::Tree, ParseFault>
    ensures { Gives L.view result reader.new (term_at (L.marks language.now) (L.leaf language.now) brackets reader.old) }
{
    read(&Seven { language }, reader, alloc, brackets)
}
