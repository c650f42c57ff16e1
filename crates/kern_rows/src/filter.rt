// What a filter does with a value.
ghost use Rattle.std.specs.Prelude.{◌≡◌, ◌≤◌, ◌++◌, length, take, IfOk, OnOk, OnErr};
ghost use Rattle.river_base.specs.Grew.{GrewByPrefix};
ghost use Rattle.work_code.specs.Steps.{code_body};
ghost use Rattle.kern_rows.specs.Forms.{filter_form};
ghost use Rattle.kern_rows.specs.Needs.{CanFilter, CanRun};
ghost use Rattle.kern_rows.specs.Runs.{filter_start, run_kept as kept_run};
ghost use Rattle.kern_rows.specs.Stands.{StandsForFiltering, Filters, GaveUp, RunsOnce, RunIs, needs_now, ran_now, first_values};

use crate::Filter;
use crate::body::run_kept;
use crate::queue::Queue;
use river_base::{Duplicate, NoMemory, Numbers};
use std::alloc::Global;
use std::marker::Model;
use work_code::{Code, Emitted};

/// What a filter keeps between values: those that wait, which are fewer than the next run needs,
/// and its kept slots.
#[derive(Drop)]
pub struct FilterState {
    // whether a first run of its own is to come
    fresh: bool,
    buffer: Queue,
    kept: Numbers,
    // what the last run pushed; only its memory is used again
    pushes: Emitted,
}

impl Model for FilterState {
    ghost use Rattle.kern_rows.specs.Stands.{Waiting};

    ghost Value = { Waiting };

    ghost view = { λ s. record { fresh = s.fresh; buffer = s.buffer; kept = s.kept } };
}

// Appends the first value of each row.
fn append_values(pushes: &Emitted, out: &mut Numbers) -> Result<(), NoMemory>
    ensures ok { OnOk result (out.new ≡ out.old ++ first_values pushes.now) }
    ensures err { OnErr result (GrewByPrefix out.old (first_values pushes.now) out.new) }
{
    for i in 0..pushes.len() {
        let (_, row) = pushes.at(i);
        out.push(row[0])?;
    }
    Ok(())
}

// One run of this body, which looks at so many values and takes so many of them. Where there is no
// memory, a part of what it gives was appended, and nothing is said of the state.
fn run_body(
    code: &Code,
    peek: u32,
    pop: u32,
    state: &mut FilterState,
    out: &mut Numbers,
) -> Result<(), NoMemory>
    requires can { CanRun peek (code_body code.now) (length state.old.kept) }
    requires enough { peek ≤ length state.old.buffer }
    requires takes { pop ≤ peek }
    ensures ran { OnOk result (RunIs peek pop (code_body code.now) state.old state.new out.old out.new) }
    ensures shape { OnOk result (length state.new.kept ≡ length state.old.kept) }
    ensures err { OnErr result (GrewByPrefix out.old
        (first_values (kept_run (code_body code.now) state.old.kept (take peek state.old.buffer)).pushes) out.new) }
{
    state.pushes.clear();
    let input = state.buffer.first(peek as usize);
    run_kept(code, &mut state.kept, input, &mut state.pushes)?;
    state.buffer.remove(pop as usize);
    state.fresh = false;
    append_values(&state.pushes, out)?;
    Ok(())
}

impl Filter {
    /// The state before the first value.
    pub fn start(&self, alloc: Global) -> Result<FilterState, NoMemory>
        ensures stands { IfOk result (λ state. CanFilter (filter_form self.now)
            → StandsForFiltering (filter_form self.now) state (filter_start (filter_form self.now))) }
        ensures shape { IfOk result (λ state. length state.kept ≡ length (filter_form self.now).starts) }
    {
        Ok(FilterState {
            fresh: self.first.is_some(),
            buffer: Queue::new(alloc),
            kept: self.starts.copy(alloc)?,
            pushes: Emitted::new(alloc),
        })
    }

    // How many values the next run needs.
    fn needs(&self, fresh: bool) -> usize
        requires { CanFilter (filter_form self.now) }
        ensures { result ≡ needs_now (filter_form self.now) fresh }
    {
        match &self.first {
            Some(first) => if fresh {
                (first.peek as usize).max(1)
            } else {
                self.peek as usize
            },
            None => self.peek as usize,
        }
    }

    // The next run.
    fn run(&self, state: &mut FilterState, out: &mut Numbers) -> Result<(), NoMemory>
        requires formed { CanFilter (filter_form self.now) }
        requires shape { length state.old.kept ≡ length (filter_form self.now).starts }
        requires enough { needs_now (filter_form self.now) state.old.fresh ≤ length state.old.buffer }
        ensures ran { OnOk result (RunsOnce (filter_form self.now) state.old state.new out.old out.new) }
        ensures shape { OnOk result (length state.new.kept ≡ length state.old.kept) }
        ensures err { OnErr result (GrewByPrefix out.old (first_values (ran_now (filter_form self.now) state.old).pushes) out.new) }
    {
        match &self.first {
            Some(first) => if state.fresh {
                run_body(&first.code, first.peek, first.pop, state, out)
            } else {
                run_body(&self.code, self.peek, self.pop, state, out)
            },
            None => run_body(&self.code, self.peek, self.pop, state, out),
        }
    }

    /// A value comes: as long as as many values wait as the next run needs, its body runs on the
    /// first ones, then the first leave, and what the body gives is appended. Where there is no
    /// memory, a part of that was appended, and nothing is said of the state.
    pub fn step(
        &self,
        state: &mut FilterState,
        value: i64,
        out: &mut Numbers,
    ) -> Result<(), NoMemory>
        requires formed { CanFilter (filter_form self.now) }
        requires shape { length state.old.kept ≡ length (filter_form self.now).starts }
        ensures given { OnOk result (Filters (filter_form self.now) value state.old state.new out.old out.new) }
        ensures shape { OnOk result (length state.new.kept ≡ length state.old.kept) }
        ensures err { OnErr result (GaveUp (filter_form self.now) value state.old out.old out.new) }
    {
        state.buffer.push(value)?;
        'runs: while state.buffer.len() >= self.needs(state.fresh) {
            self.run(state, out)?;
        }
        Ok(())
    }
}
