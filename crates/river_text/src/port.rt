// What operators read and write.
ghost use Rattle.std.specs.Prelude.{map, []};
ghost use Rattle.text_forms.specs.Gives.{Gives};
ghost use Rattle.text_forms.specs.Parse.{commas};
ghost use Rattle.text_forms.specs.Gives.{Makes};
ghost use Rattle.river_text.specs.ReadPlans.{port_at, split_from, port_list_at, ports_at};
ghost use Rattle.river_text.specs.Listed.{port_of, pair_of};

use crate::decl::BRACKETS;
use river_base::{Listed, Name};
use river_plan::Names;
use std::alloc::Global;
use text_forms::{ParseFault, Reader, closed};
use text_tokens::{Symbol, Token};

/// A queue or a variable.
#[derive(Clone, Copy)]
pub(crate) enum Port {
    Queue(Name),
    Variable(Name),
}

/// The queues and then the variables of a list.
#[derive(Drop)]
pub struct Ports {
    pub queues: Names,
    pub vars: Names,
}

// A queue or a variable.
#[tactic(auto, unfolding(crate::specs::ReadPlans::port_at))]
fn one_port(reader: &mut Reader<'_>) -> Result<Port, ParseFault>
    ensures { Gives port_of result reader.new (port_at reader.old) }
{
    if let Some(Token::Var(_)) = reader.peek() {
        return Ok(Port::Variable(reader.short_var()?));
    }
    Ok(Port::Queue(reader.short_name()?))
}

// Queues and variables with commas between them, at least one.
#[tactic(auto, using(crate::proofs::Ports::port_steps))]
fn some_ports(reader: &mut Reader<'_>, alloc: Global) -> Result<Listed<Port>, ParseFault>
    ensures { Gives (λ list. map port_of list) result reader.new (commas port_at reader.old) }
{
    let mut list = Listed::new(alloc);
    list.push(one_port(reader)?)?;
    'items: while reader.takes(Symbol::Comma) {
        list.push(one_port(reader)?)?;
    }
    Ok(list)
}

// Queues and variables with commas between them, or none before a closing bracket.
#[tactic(auto, unfolding(crate::specs::ReadPlans::port_list_at))]
fn port_list(reader: &mut Reader<'_>, alloc: Global) -> Result<Listed<Port>, ParseFault>
    ensures { Gives (λ list. map port_of list) result reader.new (port_list_at reader.old) }
{
    if reader.is_at(Symbol::Close) {
        return Ok(Listed::new(alloc));
    }
    some_ports(reader, alloc)
}

// Queues and then variables, taken apart.
#[tactic(auto, using(crate::proofs::Ports::splits))]
fn split(alloc: Global, list: &[Port]) -> Result<Ports, ParseFault>
    ensures { Makes pair_of result (split_from [] [] (map port_of list.now)) }
{
    let mut queues = Names::new(alloc);
    let mut vars = Names::new(alloc);
    'items: for i in 0..list.len() {
        match list[i] {
            Port::Variable(name) => vars.push(name)?,
            Port::Queue(name) => {
                if !vars.is_empty() {
                    return Err(ParseFault::Syntax);
                }
                queues.push(name)?;
            }
        }
    }
    Ok(Ports { queues, vars })
}

/// `(` queues and then variables `)`
#[tactic(auto, unfolding(crate::specs::ReadPlans::ports_at))]
pub fn both_lists(reader: &mut Reader<'_>, alloc: Global) -> Result<Ports, ParseFault>
    ensures { Gives pair_of result reader.new (ports_at reader.old) }
{
    reader.opens(Symbol::Open, BRACKETS)?;
    let list = port_list(reader, alloc)?;
    let ports = split(alloc, list.as_slice())?;
    closed(reader, ports, Symbol::Close)
}
