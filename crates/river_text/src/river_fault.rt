// Why a River text has no plan, and what is told of it.
ghost use Rattle.std.specs.Prelude.{◌≡◌, ◌++◌, codes, OnOk};
ghost use Rattle.std.specs.Fmt.{decimal};
ghost use Rattle.river_text.specs.declared.river_fault.RiverFault.TheVariants as fault;
ghost use Rattle.river_text.specs.Meaning.{from_plan};
ghost use Rattle.river_text.specs.Words.{limit_word, name_words, plan_words, river_words};

use river_base::{Bytes, NoMemory};
use river_plan::{Limit, Named, PlanFault};
use text_forms::{TextFault, Told};

/// Why a River text has no plan.
#[derive(Clone, Copy)]
pub enum RiverFault {
    /// The text is not read, or there was no memory.
    Text(TextFault),
    /// The lists of the text are no valid plan; this is their first fault.
    Plan(PlanFault),
}

impl From<TextFault> for RiverFault {
    ghost from_gives = { λ text f. f ≡ fault.Text text };

    fn from(text: TextFault) -> Self {
        RiverFault::Text(text)
    }
}

impl From<PlanFault> for RiverFault {
    ghost from_gives = { λ fault f. f ≡ from_plan fault };

    fn from(fault: PlanFault) -> Self {
        match fault {
            PlanFault::NoMemory => RiverFault::Text(TextFault::NoMemory),
            fault => RiverFault::Plan(fault),
        }
    }
}

impl Told for RiverFault {
    ghost told = { river_words };

    fn write(self, to: &mut Bytes) -> Result<(), NoMemory> {
        match self {
            RiverFault::Text(fault) => fault.write(to),
            RiverFault::Plan(fault) => put_fault(fault, to),
        }
    }
}

// Appends what is told of a fault of a plan.
fn put_fault(fault: PlanFault, to: &mut Bytes) -> Result<(), NoMemory>
    ensures { OnOk result (to.new ≡ to.old ++ plan_words fault) }
{
    match fault {
        PlanFault::P1(name) => put_named(b"P1 ", name, to),
        PlanFault::P2(name) => put_named(b"P2 ", name, to),
        PlanFault::P3(name) => put_named(b"P3 ", name, to),
        PlanFault::P4(name) => put_named(b"P4 ", name, to),
        PlanFault::P5(name) => put_named(b"P5 ", name, to),
        PlanFault::P6(name) => put_named(b"P6 ", name, to),
        PlanFault::P7(name) => put_named(b"P7 ", name, to),
        PlanFault::P8 { limit, number } => put_limit(limit, number, to),
        PlanFault::P9(name) => put_named(b"P9 ", name, to),
        PlanFault::NoMemory => to.extend(b"NoMemory"),
    }
}

// Appends the name of a fault and the name at fault.
#[tactic(auto, using(text_tokens::proofs::Joined::joins))]
fn put_named(fault: &[u8], name: Named, to: &mut Bytes) -> Result<(), NoMemory>
    ensures { OnOk result (to.new ≡ to.old ++ (fault.now ++ name_words name)) }
{
    to.extend(fault)?;
    put_name(name, to)
}

// Appends a name; that of a variable has its dollar sign.
#[tactic(auto, using(text_tokens::proofs::Joined::joins))]
fn put_name(name: Named, to: &mut Bytes) -> Result<(), NoMemory>
    ensures { OnOk result (to.new ≡ to.old ++ name_words name) }
{
    match name {
        Named::Queue(name) | Named::Label(name) => to.extend(name.as_slice()),
        Named::Variable(name) => {
            to.push(b'$')?;
            to.extend(name.as_slice())
        }
    }
}

// Appends a limit and the number that exceeds it.
#[tactic(auto, using(text_tokens::proofs::Joined::joins))]
fn put_limit(limit: Limit, number: u128, to: &mut Bytes) -> Result<(), NoMemory>
    ensures { OnOk result (to.new ≡ to.old ++ (codes "P8 " ++ (limit_word limit ++ (codes " " ++ decimal number)))) }
{
    to.extend(b"P8 ")?;
    to.extend(limit_word(limit))?;
    to.push(b' ')?;
    to.put_number(number)
}

// What is limited.
fn limit_word(limit: Limit) -> &'static [u8]
    ensures { result.now ≡ limit_word limit }
{
    match limit {
        Limit::Inputs => b"inputs",
        Limit::Operators => b"operators",
        Limit::Queues => b"queues",
        Limit::Variables => b"variables",
        Limit::Ports => b"ports",
        Limit::Statements => b"statements",
        Limit::Slots => b"slots",
        Limit::Rates => b"rates",
        Limit::Weights => b"weights",
        Limit::Nesting => b"nesting",
        Limit::Latest => b"latest",
        Limit::Best => b"best",
    }
}
