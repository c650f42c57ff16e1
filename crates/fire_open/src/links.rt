// The queues between two operators.
ghost use Rattle.std.specs.Prelude.{◌≡◌, ◌+◌, ◌++◌, ◌<◌, None, length, replicate, IfOk, OnOk};
ghost use Rattle.river_plan.specs.Valid.{IsPlan};
ghost use Rattle.fire_open.specs.Links.{AreLinks};
ghost use Rattle.fire_open.specs.Sources.{KnowWriters, LinkReaders};

use crate::Link;
use river_base::{Listed, NoMemory};
use river_plan::Plan;
use std::alloc::Global;

/// Where a queue is written: by which operator, at which of its ports.
#[derive(Clone, Copy)]
pub(crate) struct OutPort {
    pub writer: usize,
    pub out: usize,
}

/// For each queue where it is written, if it is.
pub(crate) type OutPorts = Listed<Option<OutPort>>;

// So many queues of which no writer is known.
fn add_unknown(sources: &mut OutPorts, count: usize) -> Result<(), NoMemory>
    ensures { OnOk result (sources.new ≡ sources.old ++ replicate count None) }
{
    for _i in 0..count {
        sources.push(None)?;
    }
    Ok(())
}

// The queues that an operator writes are known to be written by it.
fn add_writes(plan: &Plan, sources: &mut OutPorts, writer: usize)
    requires valid { IsPlan plan.now }
    requires there { writer < length plan.now.ops }
    requires before { KnowWriters plan.now writer 0 sources.old }
    ensures { KnowWriters plan.now (writer + 1) 0 sources.new }
{
    let places = plan.writes_of(writer);
    for out in 0..places.len() {
        *sources.at_mut(places[out]) = Some(OutPort { writer, out });
    }
}

// Where each queue is written.
fn sources_of(alloc: Global, plan: &Plan) -> Result<OutPorts, NoMemory>
    ensures { IfOk result (KnowWriters plan.now (length plan.now.ops) 0) }
{
    let raw = plan.raw();
    let mut sources = OutPorts::new(alloc);
    add_unknown(&mut sources, raw.outputs.len())?;
    add_unknown(&mut sources, raw.inputs.len())?;
    add_unknown(&mut sources, raw.queues.len())?;
    for writer in 0..raw.ops.len() {
        add_writes(plan, &mut sources, writer);
    }
    Ok(sources)
}

// Links for the queues that an operator reads, where another writes them.
fn add_links(
    plan: &Plan,
    sources: &OutPorts,
    links: &mut Listed<Link>,
    reader: usize,
) -> Result<(), NoMemory>
    requires valid { IsPlan plan.now }
    requires there { reader < length plan.now.ops }
    requires sources { KnowWriters plan.now (length plan.now.ops) 0 sources.now }
    requires before { LinkReaders plan.now reader 0 links.old }
    ensures { OnOk result (LinkReaders plan.now (reader + 1) 0 links.new) }
{
    let places = plan.reads_of(reader);
    for port in 0..places.len() {
        match *sources.at(places[port]) {
            Some(source) => links.push(Link {
                writer: source.writer,
                out: source.out,
                reader,
                port,
            })?,
            None => {}
        }
    }
    Ok(())
}

/// A link for each queue between two operators.
pub fn links_of(alloc: Global, plan: &Plan) -> Result<Listed<Link>, NoMemory>
    ensures valid { IsPlan plan.now }
    ensures links { IfOk result (AreLinks plan.now) }
{
    let ops = plan.raw().ops.len();
    let sources = sources_of(alloc, plan)?;
    let mut links = Listed::new(alloc);
    for reader in 0..ops {
        add_links(plan, &sources, &mut links, reader)?;
    }
    Ok(links)
}
