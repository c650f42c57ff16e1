// Units read.
ghost use Rattle.std.specs.Prelude.{◌≡◌, ◌↔◌, [], true, IsTrue, OnOk};
ghost use Rattle.text_forms.specs.Gives.{Gives};
ghost use Rattle.text_forms.specs.Texts.{whole};
ghost use Rattle.text_tokens.specs.Tok.{tokens_of};
ghost use Rattle.river_text.specs.Plans.{add_entry, cap_stands, inner, may_stand, entry_cap, next_place, stage_of};
ghost use Rattle.river_text.specs.ReadPlans.{other_after, unit_at, unit_from};
ghost use Rattle.river_text.specs.Entries.{entry_form, text_form};
ghost use Rattle.text_forms.specs.Gives.{Makes};

use crate::decl::{QueueDecl, decl, header, private, queue, table};
use crate::op::operator;
use river_base::{MOST_CAPACITY, Name, NoMemory};
use river_plan::{Cap, Caps, Decl, Op, RawPlan, TableDecl};
use std::alloc::Global;
use text_forms::{ParseFault, Reader, is, kept};
use text_tokens::Lexeme;

/// What a unit says: that the text is of version 2, or what is added to a plan.
#[derive(Drop)]
pub(crate) enum Entry {
    Header,
    Output(Decl),
    Input(Decl),
    Queue(QueueDecl),
    Table(TableDecl),
    Var(Name),
    Op(Op),
}

/// A place in a text, between its units.
#[derive(Clone, Copy)]
pub struct Place {
    /// The least place of units that may come.
    pub stage: u32,
    /// Whether there is a header before it.
    pub headed: bool,
}

/// What a text stands for: the lists of a plan, and the capacities that it gives to queues, in order.
#[derive(Drop)]
pub struct RiverText {
    pub raw: RawPlan,
    pub caps: Caps,
}

impl Entry {
    /// The place of such units in a text: 0 for a header, 1 for outputs up to 6 for operators.
    pub fn stage(&self) -> u32
        ensures { result ≡ stage_of (entry_form self.now) }
    {
        match self {
            Entry::Header => 0,
            Entry::Output(_) => 1,
            Entry::Input(_) => 2,
            Entry::Queue(_) => 3,
            Entry::Table(_) => 4,
            Entry::Var(_) => 5,
            Entry::Op(_) => 6,
        }
    }

    // The capacity that it gives to a queue.
    fn most(&self) -> Option<u32>
        ensures { result ≡ entry_cap (entry_form self.now) }
    {
        match self {
            Entry::Queue(queue) => queue.most,
            _ => None,
        }
    }

    // Whether it may stand there: late enough, and with a capacity only where it may have one.
    fn may_stand(&self, at: Place) -> bool
        ensures { result ≡ may_stand at (entry_form self.now) }
    {
        at.stage <= self.stage() && cap_stands(at.headed, self.most())
    }

    /// What may come behind it.
    pub fn next_place(&self, at: Place) -> Place
        ensures { result ≡ next_place at (entry_form self.now) }
    {
        let stage = self.stage();
        let is_header = stage == 0;
        Place {
            stage: if is_header { 1 } else { stage },
            headed: at.headed || is_header,
        }
    }

    /// Puts this at the end of its list.
    pub fn add_to(self, text: &mut RiverText) -> Result<(), NoMemory>
        ensures { OnOk result (text_form text.new ≡ add_entry (text_form text.old) (entry_form self)) }
    {
        let plan = &mut text.raw;
        match self {
            Entry::Header => Ok(()),
            Entry::Output(decl) => plan.outputs.push(decl),
            Entry::Input(decl) => plan.inputs.push(decl),
            Entry::Queue(queue) => add_queue(queue, text),
            Entry::Table(table) => plan.tables.push(table),
            Entry::Var(name) => plan.vars.push(name),
            Entry::Op(op) => plan.ops.push(op),
        }
    }
}

// Puts a queue at the end of its list, and its capacity, if it has one, at the end of the capacities.
fn add_queue(queue: QueueDecl, text: &mut RiverText) -> Result<(), NoMemory>
    ensures { OnOk result (text_form text.new ≡ add_entry (text_form text.old) (inner queue)) }
{
    text.raw.queues.push(queue.decl)?;
    if let Some(most) = queue.most {
        text.caps.push(Cap {
            queue: queue.decl.name,
            most,
        })?;
    }
    Ok(())
}

// Whether a queue may have this capacity: behind a header, and from 1 to 65,536.
fn cap_stands(headed: bool, most: Option<u32>) -> bool
    ensures { result ≡ cap_stands headed most }
{
    match most {
        None => true,
        Some(most) => headed && 1 <= most && most <= MOST_CAPACITY,
    }
}

// A unit.
#[tactic(auto, unfolding(crate::specs::ReadPlans::unit_at, crate::specs::ReadPlans::unit_after))]
fn unit(reader: &mut Reader<'_>, alloc: Global) -> Result<Entry, ParseFault>
    ensures { Gives entry_form result reader.new (unit_at reader.old) }
{
    let word = reader.name()?;
    if is(word, b"output") {
        return Ok(Entry::Output(decl(reader)?));
    }
    if is(word, b"input") {
        return Ok(Entry::Input(decl(reader)?));
    }
    if is(word, b"queue") {
        return Ok(Entry::Queue(queue(reader)?));
    }
    other_after(reader, alloc, word)
}

// What stands behind the first word of a unit that declares no queue.
#[tactic(auto, unfolding(crate::specs::ReadPlans::other_after))]
fn other_after(reader: &mut Reader<'_>, alloc: Global, word: &[u8]) -> Result<Entry, ParseFault>
    ensures { Gives entry_form result reader.new (other_after word.now reader.old) }
{
    if is(word, b"table") {
        return Ok(Entry::Table(table(reader)?));
    }
    if is(word, b"var") {
        return Ok(Entry::Var(private(reader)?));
    }
    if is(word, b"op") {
        return Ok(Entry::Op(operator(reader, alloc)?));
    }
    if is(word, b"river") {
        let _version = header(reader)?;
        return Ok(Entry::Header);
    }
    Err(ParseFault::Syntax)
}

// Whether an entry may stand there, and no token is left behind it.
fn fits(entry: &Entry, reader: &Reader<'_>, at: Place) -> bool
    ensures { IsTrue result ↔ ((reader.now ≡ []) × (may_stand at (entry_form entry.now) ≡ true)) }
{
    reader.is_at_end() && entry.may_stand(at)
}

/// The entry of a whole unit that stands there.
#[tactic(auto, using(crate::proofs::Wholes::whole_none))]
pub(crate) fn whole_entry(
    alloc: Global,
    tokens: &[Lexeme<'_>],
    at: Place,
) -> Result<Entry, ParseFault>
    ensures { Makes entry_form result (whole (unit_from at) (tokens_of tokens.now)) }
{
    let mut reader = Reader::new(tokens);
    let entry = unit(&mut reader, alloc)?;
    let fits = fits(&entry, &reader, at);
    kept(entry, fits)
}
