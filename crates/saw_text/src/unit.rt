// Units read.
ghost use Rattle.text_forms.specs.Gives.{Gives};
ghost use Rattle.saw_text.specs.Reading.{typed_at, unit_named, unit_at};
ghost use Rattle.saw_text.specs.Tree.{unit_form};

use crate::Unit;
use crate::names::user;
use crate::statement::{assign, declare};
use crate::table::table;
use crate::term::SawzallGrammar;
use river_base::Name;
use std::alloc::Global;
use text_blocks::rest;
use text_forms::{ParseFault, Reader, Units, is};
use text_tokens::Symbol;

// What stands behind `NAME:`.
#[tactic(auto, unfolding(crate::specs::Reading::typed_at, crate::specs::Reading::typed_after))]
fn typed(
    reader: &mut Reader<'_>,
    alloc: Global,
    brackets: u32,
    name: Name,
) -> Result<Unit, ParseFault>
    ensures { Gives unit_form result reader.new (typed_at name brackets reader.old) }
{
    let word = reader.name()?;
    if is(word, b"table") {
        return Ok(Unit::Table(table(reader, alloc, brackets, name)?));
    }
    if is(word, b"int") {
        return Ok(Unit::Statement(declare(reader, alloc, brackets, name)?));
    }
    Err(ParseFault::Syntax)
}

// What stands behind the name of a table or a local.
#[tactic(auto, unfolding(crate::specs::Reading::unit_named))]
fn named(
    reader: &mut Reader<'_>,
    alloc: Global,
    brackets: u32,
    name: Name,
) -> Result<Unit, ParseFault>
    ensures { Gives unit_form result reader.new (unit_named name brackets reader.old) }
{
    if !reader.is_at(Symbol::Colon) {
        return Ok(Unit::Statement(assign(reader, alloc, brackets, name)?));
    }
    reader.expect(&[Symbol::Colon])?;
    typed(reader, alloc, brackets, name)
}

// A unit.
#[tactic(auto, unfolding(crate::specs::Reading::unit_at, crate::specs::Reading::unit_after))]
fn unit(reader: &mut Reader<'_>, alloc: Global) -> Result<Unit, ParseFault>
    ensures { Gives unit_form result reader.new (unit_at reader.old) }
{
    let word = reader.name()?;
    match user(word) {
        Some(name) => named(reader, alloc, 128, name),
        None => Ok(Unit::Statement(rest(&SawzallGrammar, reader, alloc, 16, 128, word)?)),
    }
}

impl Units for SawzallGrammar {
    ghost use Rattle.saw_text.specs.Reading.{unit_at};
    ghost use Rattle.saw_text.specs.Tree.{UnitForm, unit_form};

    type Unit = Unit;

    ghost UnitTree = { UnitForm };

    ghost unit_tree = { unit_form };

    ghost unit = { λ _. unit_at };

    fn unit(&self, reader: &mut Reader<'_>, alloc: Global) -> Result<Unit, ParseFault> {
        unit(reader, alloc)
    }
}
