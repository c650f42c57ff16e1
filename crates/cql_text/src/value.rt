// Values read.
ghost use Rattle.std.specs.Prelude.{◌≡◌, IfOk};
ghost use Rattle.text_forms.specs.Gives.{Gives};
ghost use Rattle.cql_text.specs.Tree.{scalar, scalar_depth};
ghost use Rattle.cql_text.specs.ValueReading.{numeral_at, field_after, leaf_at, scalar_at};

use crate::keywords::{plain, plain_name, takes_keyword};
use crate::operator::{Sign, take_operator};
use crate::{Numeral, Operator, Scalar};
use river_base::NoMemory;
use std::alloc::Global;
use text_forms::{Dialect, Form, ParseFault, Reader, TokenSource, read};
use text_tokens::{Symbol, Token};

/// A number of at most 63 bits.
#[tactic(auto, unfolding(crate::specs::ValueReading::numeral_at))]
pub(crate) fn numeral(reader: &mut Reader<'_>) -> Result<Numeral, ParseFault>
    ensures { Gives (λ n. n.value) result reader.new (numeral_at reader.old) }
{
    let value = reader.number()?;
    if value <= 9_223_372_036_854_775_807 {
        Ok(Numeral { value })
    } else {
        Err(ParseFault::Syntax)
    }
}

// A field that begins with this name.
#[tactic(auto, unfolding(crate::specs::ValueReading::field_after))]
fn named(reader: &mut Reader<'_>, text: &[u8]) -> Result<Scalar, ParseFault>
    ensures reads { Gives scalar result reader.new (field_after text.now reader.old) }
    ensures depth { IfOk result (λ value. scalar_depth (scalar value) ≡ 1) }
{
    let Some(first) = plain(text) else {
        return Err(ParseFault::Syntax);
    };
    if reader.takes(Symbol::Dot) {
        Ok(Scalar::ItemField(first, plain_name(reader)?))
    } else {
        Ok(Scalar::Field(first))
    }
}

// A number or a field.
fn leaf(reader: &mut Reader<'_>) -> Result<Scalar, ParseFault>
    ensures reads { Gives scalar result reader.new (leaf_at reader.old) }
    ensures depth { IfOk result (λ value. scalar_depth (scalar value) ≡ 1) }
{
    match reader.peek() {
        Some(Token::Number(_)) => Ok(Scalar::Number(numeral(reader)?)),
        Some(Token::Name(text)) => {
            reader.skip();
            named(reader, text)
        }
        _ => Err(ParseFault::Syntax),
    }
}

// The values of CQL, for the reader that reads expressions of any language.
struct Scalars;

impl<'a> Dialect<Reader<'a>> for Scalars {
    ghost use Rattle.std.specs.Prelude.{length, ◌≤◌};
    ghost use Rattle.text_forms.specs.Levels.{level_of, form_of};
    ghost use Rattle.cql_text.specs.Deepest.{deepest};
    ghost use Rattle.cql_text.specs.Tree.{Scalar, scalar};
    ghost use Rattle.cql_text.specs.ValueReading.{leaf_in};
    ghost use Rattle.cql_text.specs.Values.{syntax};

    type Tree = Scalar;

    type Operator = Operator;

    type Sign = Sign;

    ghost Plain = { Scalar };

    ghost view = { scalar };

    ghost syntax = { λ _. syntax };

    ghost leaf = { λ _. leaf_in };

    ghost deeper = { λ _. deepest };

    fn height(&self) -> u32
        ensures all { result ≡ length syntax.levels }
        ensures few { result ≤ 16 }
    {
        7
    }

    #[tactic(auto, using(crate::proofs::Seven::forms))]
    fn form(&self, level: u32) -> Form
        ensures { result ≡ form_of (level_of syntax.levels level) }
    {
        match level {
            0 | 4 => Form::Prefix,
            3 => Form::Once,
            _ if level < 7 => Form::Chain,
            _ => Form::Once,
        }
    }

    fn operator(&self, reader: &mut Reader<'a>, level: u32) -> Option<Operator> {
        take_operator(reader, level)
    }

    #[tactic(auto, using(crate::proofs::Seven::signs))]
    fn sign(&self, reader: &mut Reader<'a>, level: u32) -> Option<Sign> {
        if level == 0 && reader.takes(Symbol::Minus) {
            return Some(Sign::Minus);
        }
        if level == 4 && takes_keyword(reader, b"not") {
            return Some(Sign::Not);
        }
        None
    }

    #[tactic(auto, using(crate::proofs::Seven::calls))]
    fn call(&self, _reader: &mut Reader<'a>) -> Option<Sign> {
        None
    }

    fn leaf(&self, reader: &mut Reader<'a>, _brackets: u32) -> Result<Scalar, ParseFault> {
        leaf(reader)
    }

    fn mark(&self, alloc: Global, sign: Sign, tree: Scalar) -> Result<Scalar, NoMemory>
        ensures { IfOk result (λ t. scalar t ≡ syntax.mark sign (scalar tree)) }
    {
        let inner = Box::new(alloc, tree)?;
        Ok(match sign {
            Sign::Minus => Scalar::Neg(inner),
            Sign::Not => Scalar::Not(inner),
        })
    }

    fn join(
        &self,
        alloc: Global,
        op: Operator,
        left: Scalar,
        right: Scalar,
    ) -> Result<Scalar, NoMemory>
        ensures { IfOk result (λ t. scalar t ≡ syntax.join op (scalar left) (scalar right)) }
    {
        let left = Box::new(alloc, left)?;
        let right = Box::new(alloc, right)?;
        Ok(Scalar::Bin { op, left, right })
    }
}

/// A value, at most 64 deep, where `brackets` more brackets may be open.
#[tactic(auto, unfolding(crate::specs::ValueReading::scalar_at))]
pub(crate) fn value(
    reader: &mut Reader<'_>,
    alloc: Global,
    brackets: u32,
) -> Result<Scalar, ParseFault>
    ensures { Gives scalar result reader.new (scalar_at brackets reader.old) }
{
    read(&Scalars, reader, alloc, brackets)
}
