// The kernels on rows, as data.
ghost use Rattle.std.specs.Prelude.{◌≡◌, IfOk};
ghost use Rattle.kern_rows.specs.Forms.{code_form, filter_form, run_form, optional_run};

use river_base::{Duplicate, NoMemory, Numbers};
use std::alloc::Global;
use work_code::Code;

/// A body that is run on each row, as a `map` of the River language of Soulé and others (DEBS
/// 2012).
#[derive(Drop)]
pub struct CodeKernel {
    /// The body, whose inputs are the values of the row.
    pub code: Code,
    /// The width of each output port, from 1 to 16.
    pub outs: Numbers,
    /// The values that the first slots have at the start, and that are kept from row to row.
    pub starts: Numbers,
}

impl CodeKernel {
    /// A kernel of the same meaning.
    pub fn copy(&self, alloc: Global) -> Result<CodeKernel, NoMemory>
        ensures { IfOk result (λ copy. code_form copy ≡ code_form self.now) }
    {
        Ok(CodeKernel {
            code: self.code.copy(alloc)?,
            outs: self.outs.copy(alloc)?,
            starts: self.starts.copy(alloc)?,
        })
    }
}

/// A run that replaces the usual run in the first firing of a filter, as `prework` of the StreamIt
/// language. It waits for the greater of its peek rate and 1 values.
#[derive(Drop)]
pub struct First {
    /// How many values the run looks at.
    pub peek: u32,
    /// How many values leave the buffer at the run, at most `peek`.
    pub pop: u32,
    /// How many values the run gives.
    pub push: u32,
    /// The body, whose inputs are the first `peek` values of the buffer.
    pub code: Code,
}

impl First {
    /// A run of the same meaning.
    pub fn copy(&self, alloc: Global) -> Result<First, NoMemory>
        ensures { IfOk result (λ copy. run_form copy ≡ run_form self.now) }
    {
        Ok(First {
            peek: self.peek,
            pop: self.pop,
            push: self.push,
            code: self.code.copy(alloc)?,
        })
    }
}

// A first run of the same meaning, where there is one.
fn copy_first(alloc: Global, first: &Option<First>) -> Result<Option<First>, NoMemory>
    ensures { IfOk result (λ copy. optional_run copy ≡ optional_run first.now) }
{
    match first {
        None => Ok(None),
        Some(run) => Ok(Some(run.copy(alloc)?)),
    }
}

/// A body that is run on a sliding buffer of single values, as a filter of the StreamIt language.
#[derive(Drop)]
pub struct Filter {
    /// How many values a run needs.
    pub peek: u32,
    /// How many values leave the buffer at a run, at least 1 and at most `peek`.
    pub pop: u32,
    /// How many values a run gives.
    pub push: u32,
    /// The body, whose inputs are the first `peek` values of the buffer.
    pub code: Code,
    /// The values that the first slots have at the start, and that are kept from run to run.
    pub starts: Numbers,
    /// What replaces the usual run in the first firing, where it is not like the others; it waits
    /// for the greater of its peek rate and 1 values.
    pub first: Option<First>,
}

impl Filter {
    /// A filter of the same meaning.
    pub fn copy(&self, alloc: Global) -> Result<Filter, NoMemory>
        ensures { IfOk result (λ copy. filter_form copy ≡ filter_form self.now) }
    {
        Ok(Filter {
            peek: self.peek,
            pop: self.pop,
            push: self.push,
            code: self.code.copy(alloc)?,
            starts: self.starts.copy(alloc)?,
            first: copy_first(alloc, &self.first)?,
        })
    }
}

/// Passes items to its output ports in turn, as many to each as its weight says: StreamIt's
/// round-robin splitter.
#[derive(Clone, Copy)]
pub struct Deal;

/// Takes items from its input ports in turn, as many from each as its weight says: StreamIt's
/// round-robin joiner.
#[derive(Clone, Copy)]
pub struct Collect;

/// Takes packs from its input ports in turn and passes their items in order.
#[derive(Clone, Copy)]
pub struct Unpack;
