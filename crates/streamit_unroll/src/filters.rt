// Filters: their fields, `init`, `prework` and `work`.
ghost use Rattle.std.specs.Prelude.{◌≡◌, replicate, take, pos, length, [], Ok, IfOk, OnOk};
ghost use Rattle.work_code.specs.Steps.{steps, code_body};
ghost use Rattle.work_code.specs.Ran.{IsBodyWithin, ran};
ghost use Rattle.kern_rows.specs.Forms.{run_form, optional_run, filter_form};
ghost use Rattle.kern_rows.specs.Needs.{CanRun};
ghost use Rattle.kern_rows.specs.Runs.{run_kept};
ghost use Rattle.streamit_model.specs.Elaborate.{on_ok, optional_of};
ghost use Rattle.streamit_model.specs.Meaning.{rate_or};
ghost use Rattle.streamit_model.specs.ElaborateFilter.{read_field, read_fields, nothing_read, starts_of, judged_rates, kept_rates, elaborated};
ghost use Rattle.streamit_model.specs.ElaborateFilter.{read_work, read_prework, slots_for, widened, widened_first, form_of_runs};
ghost use Rattle.streamit_text.specs.Program.{work_tree, filter_tree};
ghost use Rattle.streamit_unroll.specs.Filter.{IsReadable};
ghost use Rattle.streamit_unroll.specs.Unrolling.{at_of, worked, Reads, KeepsNames, AreWritten, AreWrittenOptional};
ghost use Rattle.streamit_text.specs.Tree.{block, optional_block};
ghost use Rattle.streamit_unroll.specs.View.{Judges};

use crate::{Known, Names, RefusedUnit, Unroller};
use kern_rows::{Filter, First};
use river_base::{MOST_ITEMS, MOST_SLOTS, Name, NoMemory, Numbers};
use std::alloc::Global;
use streamit_model::Fault;
use streamit_text::{Block, FilterTree, Rates, WorkTree};
use work_code::{Body, Code, Emitted, Stmts, run_code};

/// The filter of a plan for a filter as it is written, or the first fault in reading order.
pub fn filter(alloc: Global, tree: &FilterTree) -> Result<Filter, RefusedUnit>
    requires { IsReadable (filter_tree tree.now) }
    ensures { Judges filter_form result (elaborated (filter_tree tree.now)) }
{
    let mut unroller = Unroller::new(alloc);
    unroller.filter(alloc, tree)
}

// The rates of a filter: how many items it pushes, pops and looks at.
#[derive(Clone, Copy)]
struct Counts {
    push: u32,
    pop: u32,
    peek: u32,
}

impl Counts {
    // The rates, where some are written.
    fn of(rates: Rates) -> Counts
        ensures push { result.push ≡ rate_or rates.push 0 }
        ensures pop { result.pop ≡ rate_or rates.pop 0 }
        ensures peek { result.peek ≡ rate_or rates.peek (rate_or rates.pop 0) }
    {
        let pop = rates.pop.unwrap_or(0);
        Counts {
            push: rates.push.unwrap_or(0),
            pop,
            peek: rates.peek.unwrap_or(pop),
        }
    }

    // Whether they may stand there, where a firing pops so many items at least.
    fn judged(self, least: u32) -> Result<(), RefusedUnit>
        ensures { Judges (λ u. u) result (judged_rates least self.push self.pop self.peek) }
    {
        if self.push > MOST_ITEMS
            || self.pop > MOST_ITEMS
            || self.peek > MOST_ITEMS
            || self.pop < least
        {
            return Err(RefusedUnit::Fault(Fault::Limit));
        }
        if self.peek < self.pop {
            return Err(RefusedUnit::Fault(Fault::Rates {
                declared: self.peek,
                counted: self.pop,
            }));
        }
        Ok(())
    }
}

// Where the reading of a filter stands: the number of names, and what was counted.
#[derive(Clone, Copy)]
struct Place {
    known: usize,
    slots: u32,
    popped: u32,
    pushed: u32,
    size: u32,
}

impl Unroller {
    // Nothing was read.
    fn new(alloc: Global) -> Unroller
        ensures { at_of result ≡ nothing_read }
    {
        Unroller {
            names: Names {
                items: Vec::new(alloc),
            },
            slots: 0,
            popped: 0,
            pushed: 0,
            size: 0,
        }
    }

    // The filter, where nothing was read.
    fn filter(&mut self, alloc: Global, tree: &FilterTree) -> Result<Filter, RefusedUnit>
        requires nothing { at_of self.old ≡ nothing_read }
        requires readable { IsReadable (filter_tree tree.now) }
        ensures { Judges filter_form result (elaborated (filter_tree tree.now)) }
    {
        self.fields(tree.fields.as_slice())?;
        let starts = self.starts(alloc, tree)?;
        let first = self.prework(alloc, tree)?;
        let work = self.run(alloc, 1, &tree.work)?;
        Ok(put_together(starts, first, work))
    }

    // The fields, one after another.
    fn fields(&mut self, fields: &[Name]) -> Result<(), RefusedUnit>
        ensures { Judges (λ _. at_of self.new) result (read_fields fields.now (at_of self.old)) }
    {
        for name in fields {
            self.field(*name)?;
        }
        Ok(())
    }

    // A field, in the next slot.
    fn field(&mut self, name: Name) -> Result<(), RefusedUnit>
        ensures { Judges (λ _. at_of self.new) result (read_field name (at_of self.old)) }
    {
        self.new_name(name)?;
        let slot = self.slots;
        if slot >= MOST_SLOTS {
            return Err(RefusedUnit::Fault(Fault::Limit));
        }
        self.slots = slot + 1;
        self.names.items.push((name, Known::Var(slot)))?;
        Ok(())
    }

    // What the fields are after `init`; all that is known is as it was before.
    fn starts(&mut self, alloc: Global, tree: &FilterTree) -> Result<Numbers, RefusedUnit>
        requires fields { read_fields (filter_tree tree.now).fields nothing_read ≡ Ok (at_of self.old) }
        requires readable { IsReadable (filter_tree tree.now) }
        ensures starts { Judges (λ zs. zs) result
            (on_ok (optional_of 0 (filter_tree tree.now).init (at_of self.old)) (λ i. Ok (starts_of (length (filter_tree tree.now).fields) i))) }
        ensures back { OnOk result (at_of self.new ≡ at_of self.old) }
    {
        let before = self.place();
        let mut body = Stmts::new(alloc);
        self.optional(alloc, &tree.init, &mut body)?;
        let starts = after_one_run(alloc, tree.fields.len(), self.slots, body)?;
        self.back(before);
        Ok(starts)
    }

    // Where the reading stands.
    fn place(&self) -> Place
        ensures known { result.known ≡ length self.now.names.items.items }
        ensures slots { result.slots ≡ self.now.slots }
        ensures popped { result.popped ≡ self.now.popped }
        ensures pushed { result.pushed ≡ self.now.pushed }
        ensures size { result.size ≡ self.now.size }
    {
        Place {
            known: self.names.items.len(),
            slots: self.slots,
            popped: self.popped,
            pushed: self.pushed,
            size: self.size,
        }
    }

    // The reading stands where it stood before a block.
    fn back(&mut self, place: Place)
        ensures names { self.new.names.items.items ≡ take place.known self.old.names.items.items }
        ensures slots { self.new.slots ≡ place.slots }
        ensures popped { self.new.popped ≡ place.popped }
        ensures pushed { self.new.pushed ≡ place.pushed }
        ensures size { self.new.size ≡ place.size }
    {
        self.names.items.truncate(place.known);
        self.slots = place.slots;
        self.popped = place.popped;
        self.pushed = place.pushed;
        self.size = place.size;
    }

    // The block of `init`, where there is one.
    fn optional(
        &mut self,
        alloc: Global,
        init: &Option<Block>,
        out: &mut Stmts,
    ) -> Result<(), RefusedUnit>
        requires { AreWrittenOptional (optional_block init.now) }
        ensures { Reads result out.old out.new self.old self.new (optional_of 0 (optional_block init.now) (at_of self.old)) }
    {
        match init {
            None => Ok(()),
            Some(block) => self.all(alloc, 0, block, out),
        }
    }

    // The first run, where there is a `prework`; all that is known is as it was before.
    fn prework(&mut self, alloc: Global, tree: &FilterTree) -> Result<Option<First>, RefusedUnit>
        requires { IsReadable (filter_tree tree.now) }
        ensures read { Judges optional_run result (read_prework (filter_tree tree.now).prework (at_of self.old)) }
        ensures back { OnOk result (at_of self.new ≡ at_of self.old) }
    {
        match &tree.prework {
            None => Ok(None),
            Some(work) => Ok(Some(self.run(alloc, 0, work)?)),
        }
    }

    // The run of `prework` or `work`, which pops so many items at least; all that is known is as it was before.
    fn run(&mut self, alloc: Global, least: u32, tree: &WorkTree) -> Result<First, RefusedUnit>
        requires { AreWritten (work_tree tree.now).block }
        ensures read { Judges run_form result (read_work least (work_tree tree.now) (at_of self.old)) }
        ensures back { OnOk result (at_of self.new ≡ at_of self.old) }
    {
        let rates = Counts::of(tree.rates);
        rates.judged(least)?;
        let before = self.place();
        let code = self.work(alloc, rates, &tree.block)?;
        self.back(before);
        Ok(First {
            peek: rates.peek,
            pop: rates.pop,
            push: rates.push,
            code,
        })
    }

    // The body of a block, and whether it keeps the rates.
    fn work(&mut self, alloc: Global, rates: Counts, work: &Block) -> Result<Code, RefusedUnit>
        requires { AreWritten (block work.now) }
        ensures read { Judges code_body result (worked rates.peek rates.push rates.pop (block work.now) (at_of self.old)) }
        ensures names { OnOk result (KeepsNames self.old self.new) }
    {
        let mut body = Stmts::new(alloc);
        self.all(alloc, rates.peek, work, &mut body)?;
        self.kept(rates)?;
        Ok(Code {
            inputs: rates.peek,
            slots: self.slots,
            body: Body::of(alloc, body)?,
        })
    }

    // Whether as many items were popped and pushed as is declared.
    fn kept(&self, rates: Counts) -> Result<(), RefusedUnit>
        ensures { Judges (λ u. u) result (kept_rates rates.push rates.pop (at_of self.now)) }
    {
        if self.popped != rates.pop {
            return Err(RefusedUnit::Fault(Fault::Rates {
                declared: rates.pop,
                counted: self.popped,
            }));
        }
        if self.pushed != rates.push {
            return Err(RefusedUnit::Fault(Fault::Rates {
                declared: rates.push,
                counted: self.pushed,
            }));
        }
        Ok(())
    }
}

// The filter of what was read, with the slots of that block which has more.
fn put_together(starts: Numbers, first: Option<First>, mut work: First) -> Filter
    ensures { filter_form result ≡ form_of_runs starts (optional_run first) (run_form work) }
{
    let slots = slots_for(&first, work.code.slots);
    work.code.slots = slots;
    Filter {
        peek: work.peek,
        pop: work.pop,
        push: work.push,
        code: work.code,
        starts,
        first: first_with(first, slots),
    }
}

// The first run, where there is one, with so many slots.
fn first_with(first: Option<First>, slots: u32) -> Option<First>
    ensures { optional_run result ≡ widened_first slots (optional_run first) }
{
    match first {
        None => None,
        Some(run) => Some(widened(run, slots)),
    }
}

// A run with so many slots.
fn widened(mut run: First, slots: u32) -> First
    ensures { run_form result ≡ widened slots (run_form run) }
{
    run.code.slots = slots;
    run
}

// The greater number of slots.
fn slots_for(first: &Option<First>, slots: u32) -> u32
    ensures { result ≡ slots_for (optional_run first.now) slots }
{
    match first {
        None => slots,
        Some(first) => first.code.slots.max(slots),
    }
}

// The slots of so many fields, which were 0, after one run of the statements of `init`.
fn after_one_run(alloc: Global, fields: usize, slots: u32, body: Stmts) -> Result<Numbers, NoMemory>
    requires { CanRun 0 (record { inputs = 0; slots = slots; steps = steps body }) fields }
    ensures { IfOk result (λ kept. kept ≡ (run_kept (record { inputs = 0; slots = slots; steps = steps body }) (replicate fields (pos 0)) []).slots) }
{
    let code = Code {
        inputs: 0,
        slots,
        body: Body::of(alloc, body)?,
    };
    let mut all = zeros(alloc, slots)?;
    run_once(alloc, &code, &mut all)?;
    all.truncate(fields);
    Ok(all)
}

// One run on no items.
fn run_once(alloc: Global, code: &Code, all: &mut Numbers) -> Result<(), NoMemory>
    requires { IsBodyWithin 0 (length all.old) (code_body code.now).steps }
    ensures { OnOk result (all.new ≡ (ran (code_body code.now).steps [] all.old).slots) }
{
    let mut out = Emitted::new(alloc);
    run_code(code, &[], all.as_mut_slice(), &mut out)
}

// So many zeros.
fn zeros(alloc: Global, count: u32) -> Result<Numbers, NoMemory>
    ensures { IfOk result (λ all. all ≡ replicate count (pos 0)) }
{
    let mut all = Numbers::new(alloc);
    for _i in 0..count {
        all.push(0)?;
    }
    Ok(all)
}
