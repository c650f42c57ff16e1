// Constants, parameters, and lists of them.
ghost use Rattle.std.specs.Prelude.{◌≤◌, length, IfOk};
ghost use Rattle.text_blocks.specs.Parts.{optional};
ghost use Rattle.text_forms.specs.Gives.{Gives};
ghost use Rattle.streamit_text.specs.Tree.{expression};
ghost use Rattle.params_text.specs.Program.{expressions};
ghost use Rattle.params_text.specs.Steps.{constant_at, stream_name_at, param_at, some_params_at, round_params_at, params_at, some_constants_at};
ghost use Rattle.params_text.specs.Steps.{round_constants_at, constants_at};

use river_base::Name;
use std::alloc::Global;
use streamit_text::{Expr, Plain, StreamitGrammar, is_still, name};
use text_blocks::term;
use text_forms::{ParseFault, Reader, closed};
use text_tokens::Symbol;

/// An expression without `push`, `pop` and `peek`.
#[tactic(auto, unfolding(crate::specs::Steps::constant_at))]
pub(crate) fn constant(
    reader: &mut Reader<'_>,
    alloc: Global,
    brackets: u32,
) -> Result<Expr, ParseFault>
    ensures { Gives expression result reader.new (constant_at brackets reader.old) }
{
    let value = term(&StreamitGrammar { leaves: Plain }, reader, alloc, brackets)?;
    if is_still(&value) {
        Ok(value)
    } else {
        Err(ParseFault::Syntax)
    }
}

/// The name of a stream, of at most 32 bytes.
#[tactic(auto, unfolding(crate::specs::Steps::stream_name_at), using(crate::proofs::Lists::briefs))]
pub(crate) fn stream_name(reader: &mut Reader<'_>) -> Result<Name, ParseFault>
    ensures reads { Gives (λ name. name) result reader.new (stream_name_at reader.old) }
    ensures brief { IfOk result (λ name. length name ≤ 32) }
{
    let name = name(reader)?;
    if name.as_slice().len() <= 32 {
        Ok(name)
    } else {
        Err(ParseFault::Syntax)
    }
}

// `int NAME`
#[tactic(auto, unfolding(crate::specs::Steps::param_at))]
fn param(reader: &mut Reader<'_>) -> Result<Name, ParseFault>
    ensures { Gives (λ name. name) result reader.new (param_at reader.old) }
{
    reader.word(b"int")?;
    name(reader)
}

// Parameters with commas between them, at least one.
#[tactic(auto, unfolding(crate::specs::Steps::some_params_at), using(crate::proofs::Lists::params))]
fn some_params(reader: &mut Reader<'_>, alloc: Global) -> Result<Vec<Name>, ParseFault>
    ensures { Gives (λ names. names.items) result reader.new (some_params_at reader.old) }
{
    let mut list = Vec::new(alloc);
    list.push(param(reader)?)?;
    'items: while reader.takes(Symbol::Comma) {
        list.push(param(reader)?)?;
    }
    Ok(list)
}

// Parameters in brackets, or none in them.
#[tactic(auto, unfolding(crate::specs::Steps::round_params_at, crate::specs::Steps::some_params_at, text_blocks::specs::Parts::round_at))]
fn round_params(
    reader: &mut Reader<'_>,
    alloc: Global,
    brackets: u32,
) -> Result<Vec<Name>, ParseFault>
    ensures { Gives (λ names. names.items) result reader.new (round_params_at brackets reader.old) }
{
    reader.opens(Symbol::Open, brackets)?;
    let list = if reader.is_at(Symbol::Close) {
        Vec::new(alloc)
    } else {
        some_params(reader, alloc)?
    };
    closed(reader, list, Symbol::Close)
}

/// Parameters in brackets, or no brackets.
#[tactic(auto, unfolding(crate::specs::Steps::params_at))]
pub(crate) fn params(
    reader: &mut Reader<'_>,
    alloc: Global,
    brackets: u32,
) -> Result<Vec<Name>, ParseFault>
    ensures { Gives (λ names. names.items) result reader.new (params_at brackets reader.old) }
{
    if reader.is_at(Symbol::Open) {
        round_params(reader, alloc, brackets)
    } else {
        Ok(Vec::new(alloc))
    }
}

// Constants with commas between them, at least one.
#[tactic(auto, unfolding(crate::specs::Steps::some_constants_at), using(crate::proofs::Lists::constants))]
fn some_constants(
    reader: &mut Reader<'_>,
    alloc: Global,
    brackets: u32,
) -> Result<Vec<Expr>, ParseFault>
    ensures { Gives expressions result reader.new (some_constants_at brackets reader.old) }
{
    let mut list = Vec::new(alloc);
    list.push(constant(reader, alloc, brackets)?)?;
    'items: while reader.takes(Symbol::Comma) {
        list.push(constant(reader, alloc, brackets)?)?;
    }
    Ok(list)
}

// Constants in brackets, or none in them.
#[tactic(auto, unfolding(crate::specs::Steps::round_constants_at, crate::specs::Steps::some_constants_at, text_blocks::specs::Parts::round_at))]
fn round_constants(
    reader: &mut Reader<'_>,
    alloc: Global,
    brackets: u32,
) -> Result<Vec<Expr>, ParseFault>
    ensures { Gives expressions result reader.new (round_constants_at brackets reader.old) }
{
    let inner = reader.opens(Symbol::Open, brackets)?;
    let list = if reader.is_at(Symbol::Close) {
        Vec::new(alloc)
    } else {
        some_constants(reader, alloc, inner)?
    };
    closed(reader, list, Symbol::Close)
}

/// Constants in brackets, or no brackets.
#[tactic(auto, unfolding(crate::specs::Steps::constants_at))]
pub(crate) fn constants(
    reader: &mut Reader<'_>,
    alloc: Global,
    brackets: u32,
) -> Result<Option<Vec<Expr>>, ParseFault>
    ensures { Gives (optional expressions) result reader.new (constants_at brackets reader.old) }
{
    if reader.is_at(Symbol::Open) {
        Ok(Some(round_constants(reader, alloc, brackets)?))
    } else {
        Ok(None)
    }
}
