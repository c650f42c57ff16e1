// What a language hands in for its expressions to be read.
ghost use Rattle.std.specs.Prelude.{◌≡◌, ◌≤◌, IfOk, ℕ, List, length, is_some, if◌then◌else◌};
ghost use Rattle.text_tokens.specs.Tok.{Tok};
ghost use Rattle.text_forms.specs.Deep.{IsDeeper};
ghost use Rattle.text_forms.specs.Gives.{Gives};
ghost use Rattle.text_forms.specs.Levels.{Syntax, level_of, form_of};
ghost use Rattle.text_forms.specs.Parse.{Parse, begins_with};
ghost use Rattle.text_forms.specs.ReadLevels.{first, operator_at, sign_of_level};
ghost use Rattle.text_forms.specs.Tail.{tail};

use crate::{Form, ParseFault};
use river_base::NoMemory;
use std::alloc::Global;
use text_tokens::Symbol;

/// What reads tokens, one behind the other.
pub trait TokenSource {
    /// The tokens that are left.
    ghost rest: { Self → List Tok };

    /// Passes over this symbol where it comes next, and says whether it did.
    fn takes(&mut self, symbol: Symbol) -> bool
        ensures taken { result ≡ begins_with symbol (rest self.old) }
        ensures rest { rest self.new ≡ (if result then tail (rest self.old) else rest self.old) };
}

/// A language of expressions: its levels, from the tightest, its leaves, and how its trees are made.
pub trait Dialect<R: TokenSource> {
    type Tree: Drop;

    type Operator: Copy;

    type Sign: Copy;

    /// Trees without their places in memory.
    ghost Plain: { Type 0 };

    ghost view: { Self.Tree → Plain };

    ghost syntax: { Self → Syntax Plain Self.Operator Self.Sign };

    /// How a leaf is read, where so many more brackets may be open.
    ghost leaf: { Self → ℕ → Parse Plain };

    /// How many levels there are.
    fn height(&self) -> u32
        ensures all { result ≡ length (syntax self.now).levels }
        ensures few { result ≤ 16 };

    /// The form of the level above so many others.
    fn form(&self, level: u32) -> Form
        ensures { result ≡ form_of (level_of (syntax self.now).levels level) };

    /// Passes over the operator of the level that comes next, if one does.
    fn operator(&self, reader: &mut R, level: u32) -> Option<Self::Operator>
        ensures found { result ≡ operator_at (syntax self.now) level (R.rest reader.old) }
        ensures rest { R.rest reader.new ≡ (if is_some result then tail (R.rest reader.old) else R.rest reader.old) };

    /// Passes over the sign of the level that comes next, if one does.
    fn sign(&self, reader: &mut R, level: u32) -> Option<Self::Sign>
        ensures found { result ≡ sign_of_level (syntax self.now) level (R.rest reader.old) }
        ensures rest { R.rest reader.new ≡ (if is_some result then tail (R.rest reader.old) else R.rest reader.old) };

    /// Passes over what comes next before an expression in brackets, if something does.
    fn call(&self, reader: &mut R) -> Option<Self::Sign>
        ensures found { result ≡ first (syntax self.now).call (R.rest reader.old) }
        ensures rest { R.rest reader.new ≡ (if is_some result then tail (R.rest reader.old) else R.rest reader.old) };

    /// The leaf that has to come next.
    fn leaf(&self, reader: &mut R, brackets: u32) -> Result<Self::Tree, ParseFault>
        ensures reads { Gives view result (R.rest reader.new) (leaf self.now brackets (R.rest reader.old)) }
        ensures depth { IfOk result (λ t. (syntax self.now).depth (view t) ≡ 1) };

    /// An expression behind a sign.
    fn mark(
        &self,
        alloc: Global,
        sign: Self::Sign,
        tree: Self::Tree,
    ) -> Result<Self::Tree, NoMemory>
        ensures { IfOk result (λ t. view t ≡ (syntax self.now).mark sign (view tree)) };

    /// Two expressions with an operator between them.
    fn join(
        &self,
        alloc: Global,
        op: Self::Operator,
        left: Self::Tree,
        right: Self::Tree,
    ) -> Result<Self::Tree, NoMemory>
        ensures { IfOk result (λ t. view t ≡ (syntax self.now).join op (view left) (view right)) };

    ghost deeper: { (d : Self) → IsDeeper (syntax d) };
}
