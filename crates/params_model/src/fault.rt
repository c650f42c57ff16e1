// Why a program is refused.

/// Why a program with parameters is refused, or nothing is made of it.
#[derive(Clone, Copy)]
pub enum Fault {
    /// `add` names no stream declared above, or a constant has a name that is not known there.
    UnknownName,
    /// A name that is known is declared again.
    NameTwice,
    /// An `add` has another number of arguments than the stream has parameters.
    Arity,
    /// A parameter is assigned.
    NotConstant,
    /// The last stream has parameters.
    Top,
    /// A rate, a weight or a bound that is below 0 or above 65,536.
    Range,
    /// A pipeline or a split-join without children.
    Empty,
    /// Too many instances, too deep or with too long texts, or too many turns.
    Budget,
}

/// The fault that comes first, and the number of its unit, from 1.
#[derive(Clone, Copy)]
pub struct Refusal {
    pub unit: u32,
    pub fault: Fault,
}
