// The expressions of any language read, level by level.
ghost use Rattle.std.specs.Prelude.{◌≡◌, ◌<◌, ◌≤◌, ◌+◌, max, Some, IfOk, ◌-◌, [], ◌∷◌};
ghost use Rattle.text_forms.specs.Gives.{Gives, Keeps, Makes, PassesOver};
ghost use Rattle.text_tokens.specs.declared.sign.Symbol.TheVariants as s;
ghost use Rattle.text_forms.specs.ReadLevels.{level_at, chain_at, once_at, prefix_at, base_at, grown_at, called_at, closed_at, whole_at};
ghost use Rattle.text_forms.specs.Parse.{symbols_at};

use crate::{Dialect, Form, ParseFault, TokenSource};
use std::alloc::Global;
use text_tokens::Symbol;

// A tree and how deep it is.
#[derive(Drop)]
struct Measured<T> {
    tree: T,
    depth: u32,
}

// Passes over this symbol, which has to come next.
fn expect<R: TokenSource>(reader: &mut R, symbol: Symbol) -> Result<(), ParseFault>
    ensures { PassesOver result (R.rest reader.new) (symbols_at (symbol ∷ []) (R.rest reader.old)) }
{
    if reader.takes(symbol) {
        Ok(())
    } else {
        Err(ParseFault::Syntax)
    }
}

// A value, where the closing bracket stands behind it.
fn closing<R: TokenSource, T: Drop>(reader: &mut R, value: T) -> Result<T, ParseFault>
    ensures { Keeps value result (R.rest reader.new) (symbols_at (s.Close ∷ []) (R.rest reader.old)) }
{
    expect(reader, Symbol::Close)?;
    Ok(value)
}

// A tree behind a sign.
fn marked<R: TokenSource, D: Dialect<R>>(
    dialect: &D,
    alloc: Global,
    sign: D::Sign,
    inner: Measured<D::Tree>,
) -> Result<Measured<D::Tree>, ParseFault>
    requires room { inner.depth ≤ 64 }
    requires exact { inner.depth ≡ (D.syntax dialect.now).depth (D.view inner.tree) }
    ensures reads { Makes (λ m. D.view m.tree) result (Some ((D.syntax dialect.now).mark sign (D.view inner.tree))) }
    ensures more { IfOk result (λ m. m.depth ≡ inner.depth + 1) }
    ensures depth { IfOk result (λ m. m.depth ≡ (D.syntax dialect.now).depth (D.view m.tree)) }
{
    let tree = dialect.mark(alloc, sign, inner.tree)?;
    Ok(Measured {
        tree,
        depth: inner.depth + 1,
    })
}

// Two trees with an operator between them.
fn joined<R: TokenSource, D: Dialect<R>>(
    dialect: &D,
    alloc: Global,
    op: D::Operator,
    left: Measured<D::Tree>,
    right: Measured<D::Tree>,
) -> Result<Measured<D::Tree>, ParseFault>
    requires left_room { left.depth ≤ 64 }
    requires right_room { right.depth ≤ 64 }
    requires left { left.depth ≡ (D.syntax dialect.now).depth (D.view left.tree) }
    requires right { right.depth ≡ (D.syntax dialect.now).depth (D.view right.tree) }
    ensures reads { Makes (λ m. D.view m.tree) result (Some ((D.syntax dialect.now).join op (D.view left.tree) (D.view right.tree))) }
    ensures more { IfOk result (λ m. m.depth ≡ max left.depth right.depth + 1) }
    ensures depth { IfOk result (λ m. m.depth ≡ (D.syntax dialect.now).depth (D.view m.tree)) }
{
    let depth = left.depth.max(right.depth) + 1;
    let tree = dialect.join(alloc, op, left.tree, right.tree)?;
    Ok(Measured { tree, depth })
}

// An expression on the level above `rank` others; `brackets` more may be open, and it may be `room` deep.
#[cycle(expression)]
#[tactic(auto, using(crate::proofs::Climbs::levels))]
fn ladder<R: TokenSource, D: Dialect<R>>(
    dialect: &D,
    reader: &mut R,
    alloc: Global,
    brackets: u32,
    rank: u32,
    room: u32,
) -> Result<Measured<D::Tree>, ParseFault>
    requires room { room ≤ 64 }
    requires rank { rank ≤ 16 }
    ensures reads { Gives (λ m. D.view m.tree) result (R.rest reader.new)
        (level_at (D.syntax dialect.now) (D.leaf dialect.now) brackets rank room (R.rest reader.old)) }
    ensures small { IfOk result (λ m. m.depth ≤ room) }
    ensures depth { IfOk result (λ m. m.depth ≡ (D.syntax dialect.now).depth (D.view m.tree)) }
{
    if rank == 0 {
        return base(dialect, reader, alloc, brackets, room);
    }
    let level = rank - 1;
    match dialect.form(level) {
        Form::Chain => chain(dialect, reader, alloc, brackets, level, room),
        Form::Once => once(dialect, reader, alloc, brackets, level, room),
        Form::Prefix => prefix(dialect, reader, alloc, brackets, level, room),
    }
}

// Expressions of the level below, with operators of this level between them.
#[cycle(expression)]
#[tactic(auto, using(crate::proofs::Climbs::steps, crate::proofs::Climbs::chains))]
fn chain<R: TokenSource, D: Dialect<R>>(
    dialect: &D,
    reader: &mut R,
    alloc: Global,
    brackets: u32,
    level: u32,
    room: u32,
) -> Result<Measured<D::Tree>, ParseFault>
    requires room { room ≤ 64 }
    requires level { level < 16 }
    ensures reads { Gives (λ m. D.view m.tree) result (R.rest reader.new)
        (chain_at (D.syntax dialect.now) (D.leaf dialect.now) brackets level room (R.rest reader.old)) }
    ensures small { IfOk result (λ m. m.depth ≤ room) }
    ensures depth { IfOk result (λ m. m.depth ≡ (D.syntax dialect.now).depth (D.view m.tree)) }
{
    let mut left = ladder(dialect, reader, alloc, brackets, level, room)?;
    'items: while let Some(op) = dialect.operator(reader, level) {
        left = grown(dialect, reader, alloc, brackets, level, room, left, op)?;
    }
    Ok(left)
}

// An expression with this operator behind it, and the one of the level below that follows.
#[cycle(expression)]
#[tactic(auto, using(crate::proofs::Climbs::growths))]
fn grown<R: TokenSource, D: Dialect<R>>(
    dialect: &D,
    reader: &mut R,
    alloc: Global,
    brackets: u32,
    level: u32,
    room: u32,
    left: Measured<D::Tree>,
    op: D::Operator,
) -> Result<Measured<D::Tree>, ParseFault>
    requires room { room ≤ 64 }
    requires level { level < 16 }
    requires exact { left.depth ≡ (D.syntax dialect.now).depth (D.view left.tree) }
    ensures reads { Gives (λ m. D.view m.tree) result (R.rest reader.new) (grown_at (D.syntax dialect.now) (D.leaf dialect.now) brackets level room op
        (D.view left.tree) (R.rest reader.old)) }
    ensures small { IfOk result (λ m. m.depth ≤ room) }
    ensures depth { IfOk result (λ m. m.depth ≡ (D.syntax dialect.now).depth (D.view m.tree)) }
    ensures more { IfOk result (λ m. left.depth < m.depth) }
{
    if left.depth >= room {
        return Err(ParseFault::Syntax);
    }
    let right = ladder(dialect, reader, alloc, brackets, level, room - 1)?;
    joined(dialect, alloc, op, left, right)
}

// An expression of the level below, and one operator of this level at most.
#[cycle(expression)]
#[tactic(auto, using(crate::proofs::Climbs::steps))]
fn once<R: TokenSource, D: Dialect<R>>(
    dialect: &D,
    reader: &mut R,
    alloc: Global,
    brackets: u32,
    level: u32,
    room: u32,
) -> Result<Measured<D::Tree>, ParseFault>
    requires room { room ≤ 64 }
    requires level { level < 16 }
    ensures reads { Gives (λ m. D.view m.tree) result (R.rest reader.new)
        (once_at (D.syntax dialect.now) (D.leaf dialect.now) brackets level room (R.rest reader.old)) }
    ensures small { IfOk result (λ m. m.depth ≤ room) }
    ensures depth { IfOk result (λ m. m.depth ≡ (D.syntax dialect.now).depth (D.view m.tree)) }
{
    let left = ladder(dialect, reader, alloc, brackets, level, room)?;
    match dialect.operator(reader, level) {
        Some(op) => grown(dialect, reader, alloc, brackets, level, room, left, op),
        None => Ok(left),
    }
}

// An expression of the level below behind signs of this level, as many as come.
#[cycle(expression)]
#[tactic(auto, using(crate::proofs::Climbs::steps))]
fn prefix<R: TokenSource, D: Dialect<R>>(
    dialect: &D,
    reader: &mut R,
    alloc: Global,
    brackets: u32,
    level: u32,
    room: u32,
) -> Result<Measured<D::Tree>, ParseFault>
    requires room { room ≤ 64 }
    requires level { level < 16 }
    ensures reads { Gives (λ m. D.view m.tree) result (R.rest reader.new)
        (prefix_at (D.syntax dialect.now) (D.leaf dialect.now) brackets level room (R.rest reader.old)) }
    ensures small { IfOk result (λ m. m.depth ≤ room) }
    ensures depth { IfOk result (λ m. m.depth ≡ (D.syntax dialect.now).depth (D.view m.tree)) }
{
    if room == 0 {
        return Err(ParseFault::Syntax);
    }
    let Some(sign) = dialect.sign(reader, level) else {
        return ladder(dialect, reader, alloc, brackets, level, room);
    };
    let inner = prefix(dialect, reader, alloc, brackets, level, room - 1)?;
    marked(dialect, alloc, sign, inner)
}

// Brackets, a call or a leaf.
#[cycle(expression)]
#[tactic(auto, using(crate::proofs::Climbs::steps))]
fn base<R: TokenSource, D: Dialect<R>>(
    dialect: &D,
    reader: &mut R,
    alloc: Global,
    brackets: u32,
    room: u32,
) -> Result<Measured<D::Tree>, ParseFault>
    requires room { room ≤ 64 }
    ensures reads { Gives (λ m. D.view m.tree) result (R.rest reader.new)
        (base_at (D.syntax dialect.now) (D.leaf dialect.now) brackets room (R.rest reader.old)) }
    ensures small { IfOk result (λ m. m.depth ≤ room) }
    ensures depth { IfOk result (λ m. m.depth ≡ (D.syntax dialect.now).depth (D.view m.tree)) }
{
    if room == 0 {
        return Err(ParseFault::Syntax);
    }
    if reader.takes(Symbol::Open) {
        return enclosed(dialect, reader, alloc, brackets, room);
    }
    match dialect.call(reader) {
        Some(sign) => called(dialect, reader, alloc, brackets, room - 1, sign),
        None => leaf(dialect, reader, brackets),
    }
}

// A leaf.
fn leaf<R: TokenSource, D: Dialect<R>>(
    dialect: &D,
    reader: &mut R,
    brackets: u32,
) -> Result<Measured<D::Tree>, ParseFault>
    ensures reads { Gives (λ m. D.view m.tree) result (R.rest reader.new) (D.leaf dialect.now brackets (R.rest reader.old)) }
    ensures small { IfOk result (λ m. m.depth ≡ 1) }
    ensures depth { IfOk result (λ m. m.depth ≡ (D.syntax dialect.now).depth (D.view m.tree)) }
{
    let tree = dialect.leaf(reader, brackets)?;
    Ok(Measured { tree, depth: 1 })
}

// An expression in brackets behind a word, which was passed over.
#[cycle(expression)]
fn called<R: TokenSource, D: Dialect<R>>(
    dialect: &D,
    reader: &mut R,
    alloc: Global,
    brackets: u32,
    room: u32,
    sign: D::Sign,
) -> Result<Measured<D::Tree>, ParseFault>
    requires room { room < 64 }
    ensures reads { Gives (λ m. D.view m.tree) result (R.rest reader.new)
        (called_at (D.syntax dialect.now) (D.leaf dialect.now) brackets room sign (R.rest reader.old)) }
    ensures small { IfOk result (λ m. m.depth ≤ room + 1) }
    ensures depth { IfOk result (λ m. m.depth ≡ (D.syntax dialect.now).depth (D.view m.tree)) }
{
    expect(reader, Symbol::Open)?;
    let inner = enclosed(dialect, reader, alloc, brackets, room)?;
    marked(dialect, alloc, sign, inner)
}

// An expression behind one bracket more, and the closing bracket.
#[cycle(expression)]
#[tactic(auto, using(crate::proofs::Climbs::steps))]
fn enclosed<R: TokenSource, D: Dialect<R>>(
    dialect: &D,
    reader: &mut R,
    alloc: Global,
    brackets: u32,
    room: u32,
) -> Result<Measured<D::Tree>, ParseFault>
    requires room { room ≤ 64 }
    ensures reads { Gives (λ m. D.view m.tree) result (R.rest reader.new)
        (closed_at (D.syntax dialect.now) (D.leaf dialect.now) brackets room (R.rest reader.old)) }
    ensures small { IfOk result (λ m. m.depth ≤ room) }
    ensures depth { IfOk result (λ m. m.depth ≡ (D.syntax dialect.now).depth (D.view m.tree)) }
{
    if brackets == 0 {
        return Err(ParseFault::Syntax);
    }
    let inner = ladder(dialect, reader, alloc, brackets - 1, dialect.height(), room)?;
    closing(reader, inner)
}

/// An expression of a language, at most 64 deep, where `brackets` more brackets may be open. What stands behind it is
/// left.
///
/// # Errors
///
/// `Syntax` where none comes next, `NoMemory` where there is no memory.
pub fn read<R: TokenSource, D: Dialect<R>>(
    dialect: &D,
    reader: &mut R,
    alloc: Global,
    brackets: u32,
) -> Result<D::Tree, ParseFault>
    ensures { Gives D.view result (R.rest reader.new) (whole_at (D.syntax dialect.now) (D.leaf dialect.now) brackets (R.rest reader.old)) }
{
    Ok(ladder(dialect, reader, alloc, brackets, dialect.height(), 64)?.tree)
}
