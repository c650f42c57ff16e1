// Streamers of changes, and what they keep.
ghost use Rattle.std.specs.Prelude.{◌≡◌, [], ℕ, IfOk, OnOk, OnErr};
ghost use Rattle.river_base.specs.Changes.{IsWideChange, IsChanged};
ghost use Rattle.river_base.specs.Held.{HaveWidth};
ghost use Rattle.kern_bags.specs.declared.kernel.Streamer.TheVariants.{Istream, Dstream};
ghost use Rattle.kern_bags.specs.Following.{StreamsFree, StreamsAll, StreamSteps, StreamsFlat};

use crate::Streamer;
use crate::given::{change_of, give_batch};
use kern_changes::Content;
use river_base::{Batch, Change, Flat, Items, NoMemory};
use std::alloc::Global;
use std::marker::Model;

/// What a streamer keeps between changes: the content, where it gives the whole of it.
#[derive(Drop)]
pub struct StreamerState {
    content: Content,
}

impl Model for StreamerState {
    ghost use Rattle.std.specs.Prelude.{ℤ, List};

    ghost Value = { List (List ℤ) };

    ghost view = { λ s. s.content };
}

// The rows that came since the content before.
fn istream(change: Change) -> Batch
    ensures contents { StreamsFree Istream change result }
    ensures fits { (w : ℕ) → IsWideChange w change → HaveWidth w result.rows }
{
    Batch {
        at: change.at,
        rows: change.plus,
    }
}

// The rows that went since the content before.
fn dstream(change: Change) -> Batch
    ensures contents { StreamsFree Dstream change result }
    ensures fits { (w : ℕ) → IsWideChange w change → HaveWidth w result.rows }
{
    Batch {
        at: change.at,
        rows: change.minus,
    }
}

// All rows of the content, in ascending order, once the change is made on it.
fn rstream(alloc: Global, content: &mut Content, change: Change) -> Result<Batch, NoMemory>
    ensures contents { IfOk result (λ batch. StreamsAll change content.old content.new batch) }
    ensures fits { IfOk result (λ batch. (w : ℕ) → HaveWidth w content.old → IsWideChange w change → HaveWidth w content.new × HaveWidth w batch.rows) }
{
    content.make(&change)?;
    let mut rows = content.rows(alloc)?;
    rows.sort()?;
    Ok(Batch {
        at: change.at,
        rows,
    })
}

impl StreamerState {
    // What a streamer gives for a change.
    fn take(
        &mut self,
        alloc: Global,
        streamer: &Streamer,
        change: Change,
    ) -> Result<Batch, NoMemory>
        ensures { IfOk result (λ batch. StreamSteps streamer.now change self.old self.new batch) }
    {
        match streamer {
            Streamer::Istream => Ok(istream(change)),
            Streamer::Dstream => Ok(dstream(change)),
            Streamer::Rstream => rstream(alloc, &mut self.content, change),
        }
    }
}

impl Streamer {
    /// The state before the first change, when the relation is empty.
    pub fn start(&self, alloc: Global) -> Result<StreamerState, NoMemory>
        ensures { IfOk result (λ state. state ≡ []) }
    {
        Ok(StreamerState {
            content: Content::new(alloc),
        })
    }

    /// A change of a relation comes. The rows that came since the content before, those that went,
    /// or all are given in ascending order, at the change's instant. `Istream` and `Dstream` cost
    /// nothing, since their rows are parts of the change; `Rstream` makes the change on the content
    /// that it keeps, and costs what it gives. Where there is no memory, nothing was given, and
    /// nothing is said of the state.
    pub fn step(
        &self,
        alloc: Global,
        state: &mut StreamerState,
        item: Flat,
        out: &mut Items,
    ) -> Result<(), NoMemory>
        requires { IsChanged item }
        ensures ok { OnOk result (StreamsFlat self.now item state.old state.new out.old out.new) }
        ensures err { OnErr result (out.new ≡ out.old) }
    {
        let batch = state.take(alloc, self, change_of(item))?;
        give_batch(batch, out)
    }
}
