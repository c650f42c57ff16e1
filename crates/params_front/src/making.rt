// What was made so far: the text, the source unit of each instance, and what was counted.
ghost use Rattle.std.specs.Prelude.{◌≡◌, ◌≤◌, ◌+◌, ◌&&◌, suc, length, nat_lt, nat_le, IfOk, OnOk};
ghost use Rattle.params_text.specs.Program.{UnitForm};
ghost use Rattle.params_model.specs.Making.{Made, nothing_made, begin, turn, demand};
ghost use Rattle.params_build.specs.Judging.{JudgesAll};
ghost use Rattle.params_front.specs.Standing.{Stands, Begins, Wrote, Blames};

use params_build::Refused;
use params_model::{Fault, Refusal};
use params_print::Instance;
use params_text::Unit;
use river_base::{Bytes, Name, NoMemory, Numbers};
use std::alloc::Global;

/// The most instances of one program.
const MOST_INSTANCES: u32 = 1024;

/// The deepest that an instance may lie; that of the last stream lies 1 deep.
const MOST_DEPTH: u32 = 64;

/// The most bytes of the units of all instances.
const MOST_BYTES: usize = 1_048_576;

/// The most turns of loops that are written out.
const MOST_TURNS: u32 = 65_536;

/// What was made so far: the text, the source unit of each instance, and the number of the last one;
/// and how many instances were begun, the bytes of their units, and how many turns were begun.
#[derive(Drop)]
pub(crate) struct Making {
    pub text: Bytes,
    pub from: Numbers,
    pub number: u32,
    pub begun: u32,
    pub bytes: usize,
    pub turns: u32,
}

impl Making {
    /// Nothing was made.
    pub fn new(alloc: Global) -> Making
        ensures { Stands result nothing_made }
    {
        Making {
            text: Bytes::new(alloc),
            from: Numbers::new(alloc),
            number: 0,
            begun: 0,
            bytes: 0,
            turns: 0,
        }
    }

    /// An instance of the unit behind these is begun: it has so many bytes, and lies so deep.
    pub fn begin(&mut self, above: &[Unit], size: usize, depth: u32) -> Result<(), Refused>
        ensures begun { (m : Made) (d : UnitForm) → Stands self.old m
            → Begins result self.new (begin (record { unit = suc (length above.now); bytes = size; stream = d }) depth m) }
        ensures deep { OnOk result (depth ≤ 64) }
    {
        let fits = self.has_room(size, depth);
        demand(above, fits, Fault::Budget)?;
        self.begun += 1;
        self.bytes += size;
        Ok(())
    }

    // Whether one more instance may be begun, with so many bytes and so deep.
    fn has_room(&self, size: usize, depth: u32) -> bool
        ensures { result ≡ (nat_lt self.now.begun 1024 && (nat_le depth 64 && nat_le (self.now.bytes + size) 1048576)) }
    {
        let has_bytes = size <= MOST_BYTES && self.bytes <= MOST_BYTES - size;
        self.begun < MOST_INSTANCES && depth <= MOST_DEPTH && has_bytes
    }

    /// A turn of a loop is begun, in the unit behind these.
    pub fn begin_turn(&mut self, above: &[Unit]) -> Result<(), Refused>
        ensures { (m : Made) → Stands self.old m → Begins result self.new (turn (suc (length above.now)) m) }
    {
        demand(above, self.turns < MOST_TURNS, Fault::Budget)?;
        self.turns += 1;
        Ok(())
    }

    /// The next instance, which is one of this stream.
    pub fn next(&self, stream: Name) -> Result<Instance, NoMemory>
        ensures stream { IfOk result (λ i. i.stream ≡ stream) }
        ensures number { IfOk result (λ i. i.number ≡ suc self.now.number) }
    {
        let number = self.number.checked_add(1).ok_or(NoMemory)?;
        Ok(Instance { stream, number })
    }

    /// The instance was written, of the unit behind these.
    pub fn wrote(&mut self, above: &[Unit], instance: Instance) -> Result<Instance, NoMemory>
        ensures same { IfOk result (λ i. i ≡ instance) }
        ensures noted { OnOk result (Wrote self.old self.new (suc (length above.now)) instance.number) }
    {
        let unit = unit_behind(above)?;
        self.from.push(i64::from(unit))?;
        self.number = instance.number;
        Ok(instance)
    }
}

// The number of the unit behind these.
fn unit_behind(above: &[Unit]) -> Result<u32, NoMemory>
    ensures { IfOk result (λ unit. unit ≡ suc (length above.now)) }
{
    match u32::try_from(above.len()) {
        Ok(unit) => unit.checked_add(1).ok_or(NoMemory),
        Err(_) => Err(NoMemory),
    }
}

/// The fault of the unit behind these.
pub(crate) fn refuse(above: &[Unit], fault: Fault) -> Refused
    ensures { Blames result (suc (length above.now)) fault }
{
    match unit_behind(above) {
        Ok(unit) => Refused::Program(Refusal { unit, fault }),
        Err(no_memory) => Refused::from(no_memory),
    }
}

/// The fault of the unit behind these, where a test fails.
pub(crate) fn demand(above: &[Unit], holds: bool, fault: Fault) -> Result<(), Refused>
    ensures { JudgesAll result (demand holds (suc (length above.now)) fault) }
{
    if holds {
        Ok(())
    } else {
        Err(refuse(above, fault))
    }
}
