// The operators between two values.
ghost use Rattle.std.specs.Prelude.{◌≡◌, if◌then◌else◌, is_some};
ghost use Rattle.text_forms.specs.Tail.{tail};
ghost use Rattle.cql_text.specs.ValueReading.{operator_at};
ghost use Rattle.cql_text.specs.Values.{op_of, word_op, rank_of};

use crate::keywords::is_keyword;
use text_forms::Reader;
use text_tokens::{Symbol, Token};

/// An operator between two values, as it is written.
#[derive(Clone, Copy)]
pub enum Operator {
    /// `*`
    Mul,
    /// `/`
    Quot,
    /// `%`
    Rem,
    /// `+`
    Add,
    /// `-`
    Sub,
    /// `=`
    Equal,
    /// `<>`
    Different,
    /// `!=`
    NotEqual,
    /// `<`
    Less,
    /// `<=`
    LessEqual,
    /// `>`
    Greater,
    /// `>=`
    GreaterEqual,
    /// `And`
    And,
    /// `Or`
    Or,
}

/// What stands before a value.
#[derive(Clone, Copy)]
pub enum Sign {
    /// `-`
    Minus,
    /// `Not`
    Not,
}

impl Operator {
    // The operator of a symbol.
    fn of_symbol(symbol: Symbol) -> Option<Operator>
        ensures { result ≡ op_of symbol }
    {
        match symbol {
            Symbol::Plus => Some(Operator::Add),
            Symbol::Minus => Some(Operator::Sub),
            Symbol::Star => Some(Operator::Mul),
            Symbol::Slash => Some(Operator::Quot),
            Symbol::Percent => Some(Operator::Rem),
            Symbol::Assign => Some(Operator::Equal),
            Symbol::Different => Some(Operator::Different),
            Symbol::NotEqual => Some(Operator::NotEqual),
            Symbol::Less => Some(Operator::Less),
            Symbol::LessEqual => Some(Operator::LessEqual),
            Symbol::Greater => Some(Operator::Greater),
            Symbol::GreaterEqual => Some(Operator::GreaterEqual),
            _ => None,
        }
    }

    // The operator of a word.
    fn of_word(text: &[u8]) -> Option<Operator>
        ensures { result ≡ word_op text.now }
    {
        if is_keyword(text, b"and") {
            Some(Operator::And)
        } else if is_keyword(text, b"or") {
            Some(Operator::Or)
        } else {
            None
        }
    }

    // The level of the grammar: 1 binds tightest, 6 least; 3 compares.
    fn rank(self) -> u32
        ensures { result ≡ rank_of self }
    {
        match self {
            Operator::Mul | Operator::Quot | Operator::Rem => 1,
            Operator::Add | Operator::Sub => 2,
            Operator::And => 5,
            Operator::Or => 6,
            _ => 3,
        }
    }
}

// The operator of this level that comes next.
fn operator_at(reader: &Reader<'_>, rank: u32) -> Option<Operator>
    ensures { result ≡ operator_at rank reader.now }
{
    let op = match reader.peek()? {
        Token::Sign(symbol) => Operator::of_symbol(symbol)?,
        Token::Name(text) => Operator::of_word(text)?,
        _ => return None,
    };
    if op.rank() == rank { Some(op) } else { None }
}

/// Passes over the operator of this level, where one comes next.
pub(crate) fn take_operator(reader: &mut Reader<'_>, rank: u32) -> Option<Operator>
    ensures found { result ≡ operator_at rank reader.old }
    ensures rest { reader.new ≡ (if is_some result then tail reader.old else reader.old) }
{
    let op = operator_at(reader, rank)?;
    reader.skip();
    Some(op)
}
