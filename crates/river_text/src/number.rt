// Numbers read.
ghost use Rattle.std.specs.Prelude.{◌++◌, [], ◌∷◌};
ghost use Rattle.text_forms.specs.Gives.{Gives};
ghost use Rattle.text_forms.specs.Parse.{commas, listing, seen};
ghost use Rattle.text_tokens.specs.declared.sign.Symbol.TheVariants as s;
ghost use Rattle.river_text.specs.ReadKernels.{kind_number_at, signed_at, width_at, round, starts_at};
ghost use Rattle.river_text.specs.ReadKernels.{widths_at, weights_at, number_at, two_at, pair_at, three_at, triple_at, rates_at};

use river_base::Numbers;
use std::alloc::Global;
use text_forms::{ParseFault, Reader, closed};
use text_tokens::Symbol;

/// What a number in a list is.
#[derive(Clone, Copy)]
pub(crate) enum Kind {
    /// The width of a port.
    Width,
    /// A value that may be below 0, or `min`.
    Signed,
    /// A value as it is written.
    Value,
}

// A number of this kind.
fn number_of(reader: &mut Reader<'_>, kind: Kind) -> Result<i64, ParseFault>
    ensures { Gives (λ value. value) result reader.new (kind_number_at kind reader.old) }
{
    match kind {
        Kind::Width => width(reader),
        Kind::Signed => signed(reader),
        Kind::Value => reader.value(),
    }
}

// The width of a port.
fn width(reader: &mut Reader<'_>) -> Result<i64, ParseFault>
    ensures { Gives (λ value. value) result reader.new (width_at reader.old) }
{
    Ok(i64::from(reader.count()?))
}

/// A value that may be below 0, or `min`.
#[tactic(auto, unfolding(crate::specs::ReadKernels::signed_at))]
pub fn signed(reader: &mut Reader<'_>) -> Result<i64, ParseFault>
    ensures { Gives (λ value. value) result reader.new (signed_at reader.old) }
{
    if reader.takes(Symbol::Minus) {
        return Ok(-reader.value()?);
    }
    if reader.is_at_word(b"min") {
        reader.skip();
        return Ok(i64::MIN);
    }
    reader.value()
}

// Puts a number of this kind at the end of a list.
fn add_number(reader: &mut Reader<'_>, kind: Kind, to: &mut Numbers) -> Result<(), ParseFault>
    ensures { Gives (λ _. to.new) result reader.new (seen (λ v. to.old ++ v ∷ []) (kind_number_at kind) reader.old) }
{
    let number = number_of(reader, kind)?;
    Ok(to.push(number)?)
}

// Numbers of this kind with commas between them, at least one.
#[tactic(auto, using(crate::proofs::Steps::numbers))]
fn some_numbers(reader: &mut Reader<'_>, alloc: Global, kind: Kind) -> Result<Numbers, ParseFault>
    ensures { Gives (λ list. list) result reader.new (commas (kind_number_at kind) reader.old) }
{
    let mut list = Numbers::new(alloc);
    add_number(reader, kind, &mut list)?;
    'items: while reader.takes(Symbol::Comma) {
        add_number(reader, kind, &mut list)?;
    }
    Ok(list)
}

// Numbers of this kind with commas between them, or none before a closing bracket.
fn numbers(reader: &mut Reader<'_>, alloc: Global, kind: Kind) -> Result<Numbers, ParseFault>
    ensures { Gives (λ list. list) result reader.new (listing s.Close (kind_number_at kind) reader.old) }
{
    if reader.is_at(Symbol::Close) {
        return Ok(Numbers::new(alloc));
    }
    some_numbers(reader, alloc, kind)
}

// `(` numbers of this kind, or none `)`
fn round_numbers(
    reader: &mut Reader<'_>,
    alloc: Global,
    brackets: u32,
    kind: Kind,
) -> Result<Numbers, ParseFault>
    ensures { Gives (λ list. list) result reader.new (round (λ m. listing s.Close (kind_number_at kind)) brackets reader.old) }
{
    reader.opens(Symbol::Open, brackets)?;
    let list = numbers(reader, alloc, kind)?;
    closed(reader, list, Symbol::Close)
}

/// `(` the kept values at the start `)`
#[tactic(auto, unfolding(crate::specs::ReadKernels::starts_at))]
pub(crate) fn starts(
    reader: &mut Reader<'_>,
    alloc: Global,
    brackets: u32,
) -> Result<Numbers, ParseFault>
    ensures { Gives (λ list. list) result reader.new (starts_at brackets reader.old) }
{
    round_numbers(reader, alloc, brackets, Kind::Signed)
}

/// `(` the widths of the output ports `)`
#[tactic(auto, unfolding(crate::specs::ReadKernels::widths_at))]
pub(crate) fn widths(
    reader: &mut Reader<'_>,
    alloc: Global,
    brackets: u32,
) -> Result<Numbers, ParseFault>
    ensures { Gives (λ list. list) result reader.new (widths_at brackets reader.old) }
{
    round_numbers(reader, alloc, brackets, Kind::Width)
}

/// `(` the weights of the ports `)`
#[tactic(auto, unfolding(crate::specs::ReadKernels::weights_at))]
pub(crate) fn weights(
    reader: &mut Reader<'_>,
    alloc: Global,
    brackets: u32,
) -> Result<Numbers, ParseFault>
    ensures { Gives (λ list. list) result reader.new (weights_at brackets reader.old) }
{
    reader.opens(Symbol::Open, brackets)?;
    let list = some_numbers(reader, alloc, Kind::Value)?;
    closed(reader, list, Symbol::Close)
}

/// `(N)`
#[tactic(auto, unfolding(crate::specs::ReadKernels::number_at))]
pub fn number(reader: &mut Reader<'_>, brackets: u32) -> Result<u32, ParseFault>
    ensures { Gives (λ value. value) result reader.new (number_at brackets reader.old) }
{
    reader.opens(Symbol::Open, brackets)?;
    let value = reader.count()?;
    closed(reader, value, Symbol::Close)
}

// `N, N`
#[tactic(auto, unfolding(crate::specs::ReadKernels::two_at))]
fn two(reader: &mut Reader<'_>) -> Result<(u32, u32), ParseFault>
    ensures { Gives (λ value. value) result reader.new (two_at reader.old) }
{
    let first = reader.count()?;
    reader.expect(&[Symbol::Comma])?;
    let second = reader.count()?;
    Ok((first, second))
}

/// `(N, N)`
#[tactic(auto, unfolding(crate::specs::ReadKernels::pair_at))]
pub fn pair(reader: &mut Reader<'_>, brackets: u32) -> Result<(u32, u32), ParseFault>
    ensures { Gives (λ value. value) result reader.new (pair_at brackets reader.old) }
{
    reader.opens(Symbol::Open, brackets)?;
    let pair = two(reader)?;
    closed(reader, pair, Symbol::Close)
}

// `N, N, N`
#[tactic(auto, unfolding(crate::specs::ReadKernels::three_at))]
fn three(reader: &mut Reader<'_>) -> Result<(u32, u32, u32), ParseFault>
    ensures { Gives (λ value. (value.0, (value.1, value.2))) result reader.new (three_at reader.old) }
{
    let first = reader.count()?;
    reader.expect(&[Symbol::Comma])?;
    let (second, third) = two(reader)?;
    Ok((first, second, third))
}

/// `(N, N, N)`
#[tactic(auto, unfolding(crate::specs::ReadKernels::triple_at))]
pub(crate) fn triple(reader: &mut Reader<'_>, brackets: u32) -> Result<(u32, u32, u32), ParseFault>
    ensures { Gives (λ value. (value.0, (value.1, value.2))) result reader.new (triple_at brackets reader.old) }
{
    reader.opens(Symbol::Open, brackets)?;
    let triple = three(reader)?;
    closed(reader, triple, Symbol::Close)
}

/// `(N, N, N, N)`
#[tactic(auto, unfolding(crate::specs::ReadKernels::rates_at))]
pub(crate) fn rates(
    reader: &mut Reader<'_>,
    brackets: u32,
) -> Result<(u32, u32, u32, u32), ParseFault>
    ensures { Gives (λ value. (value.0, (value.1, (value.2, value.3)))) result reader.new (rates_at brackets reader.old) }
{
    reader.opens(Symbol::Open, brackets)?;
    let (peek, pop) = two(reader)?;
    reader.expect(&[Symbol::Comma])?;
    let (push, slots) = two(reader)?;
    closed(reader, (peek, pop, push, slots), Symbol::Close)
}
