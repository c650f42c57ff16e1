// Programs of CQL as they are written: a type for each line of the grammar.
ghost use Rattle.std.specs.Prelude.{◌≤◌};

use crate::Operator;
use river_base::Name;

/// A program: its units, in order.
#[derive(Drop)]
pub struct CqlProgram {
    pub units: Vec<Unit>,
}

/// A unit of a program.
#[derive(Drop)]
pub enum Unit {
    /// `Register Stream NAME (NAME, ..);`
    Register(Stream),
    /// `Query NAME : Select kind (cols) From item, .. [Where cor];`
    Query(Query),
}

/// A registered stream and its fields, of which there is at least one.
#[derive(Drop)]
pub struct Stream {
    pub name: Name,
    pub fields: Vec<Name>,
}

/// A query: what it selects, from one item or more, and on which condition.
#[derive(Drop)]
pub struct Query {
    pub name: Name,
    pub kind: Kind,
    pub columns: Columns,
    pub items: Vec<Source>,
    pub condition: Option<Scalar>,
}

/// How the relation of a query becomes a stream.
#[derive(Clone, Copy)]
pub enum Kind {
    /// `Istream`: the rows that came.
    Istream,
    /// `Dstream`: the rows that went.
    Dstream,
    /// `Rstream`: all rows.
    Rstream,
}

/// What a query selects.
#[derive(Drop)]
pub enum Columns {
    /// `*`: all fields of all items.
    Star,
    /// Columns, at least one.
    Chosen(Vec<Column>),
}

/// `cor [As NAME]`
#[derive(Drop)]
pub struct Column {
    pub value: Scalar,
    pub alias: Option<Name>,
}

/// `NAME [window] [[As] NAME]`: a window on a stream, under a name of its own or the stream's.
#[derive(Clone, Copy)]
pub struct Source {
    pub stream: Name,
    pub window: Window,
    pub alias: Option<Name>,
}

/// The window of an item.
#[derive(Clone, Copy)]
pub enum Window {
    /// `Now`
    Now,
    /// `Range N [Second | Seconds]`
    Range(Numeral, Option<TimeUnit>),
    /// `Range Unbounded`
    Unbounded,
    /// `Rows N`
    Rows(u32),
}

/// How the unit of time is written.
#[derive(Clone, Copy)]
pub enum TimeUnit {
    /// `Second`
    Second,
    /// `Seconds`
    Seconds,
}

/// A number as it is written: 0 to 9223372036854775807.
#[derive(Clone, Copy)]
pub struct Numeral {
    pub value: u64,
    ghost fits: { value ≤ 9223372036854775807 },
}

/// A value: the lines `cor` to `cun` of the grammar, with a variant for each leaf and one for all operators.
#[derive(Drop)]
pub enum Scalar {
    /// NUMBER
    Number(Numeral),
    /// NAME: a field of one of the items.
    Field(Name),
    /// NAME.NAME: the field of this item.
    ItemField(Name, Name),
    /// `-`
    Neg(Box<Scalar>),
    /// `Not`
    Not(Box<Scalar>),
    /// Two values and the operator between them.
    Bin {
        op: Operator,
        left: Box<Scalar>,
        right: Box<Scalar>,
    },
}
