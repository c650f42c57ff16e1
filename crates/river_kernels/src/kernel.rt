// The kernels of operators.
ghost use Rattle.std.specs.Prelude.{◌≡◌, IfOk};
ghost use Rattle.work_code.specs.Term.{term, terms};
ghost use Rattle.kern_rows.specs.Forms.{code_form, filter_form};
ghost use Rattle.river_kernels.specs.Kern.{kern_of, code, filter, deal, collect, packed, select, project, fused};

use kern_bags::{Streamer, Window};
use kern_rows::{CodeKernel, Filter};
use river_base::{Duplicate, NoMemory, Numbers};
use std::alloc::Global;
use work_code::{Formula, Formulas};

/// What an operator does when it takes an item, after the wrapped functions of the Brooklet calculus (Soulé and
/// others, ESOP 2010).
#[derive(Drop)]
pub enum Kernel {
    /// Runs a body on each row.
    Code(CodeKernel),
    /// Runs a body on a sliding buffer of single values.
    Filter(Filter),
    /// Gives each item to so many ports.
    Duplicate(u32),
    /// Gives items to its ports in turn, by these weights.
    Deal(Numbers),
    /// Takes items from its ports in turn, by these weights.
    Collect(Numbers),
    /// Gives one pack of all that the kernel inside gives for an item.
    Packed(Box<Kernel>),
    /// Takes packs from so many ports in turn, and gives their items.
    Unpack(u32),
    /// Makes a relation of the window of a stream.
    Window(Window),
    /// Keeps the rows for which the expression is not 0.
    Select(Formula),
    /// Gives for each row the values of the expressions.
    Project(Formulas),
    /// Joins the rows of two relations in all pairs.
    Cross,
    /// Makes a stream of a relation.
    Streamer(Streamer),
    /// Adds each row to a table.
    Tally,
    /// Fires the first kernel, and then the second on each item that the first gave at port `at`.
    Fused {
        first: Box<Kernel>,
        second: Box<Kernel>,
        at: u32,
    },
}

impl Kernel {
    /// A kernel of the same meaning.
    #[cycle(copy)]
    pub fn copy(&self, alloc: Global) -> Result<Kernel, NoMemory>
        ensures { IfOk result (λ copy. kern_of copy ≡ kern_of self.now) }
    {
        match self {
            Kernel::Code(code) => copy_code(alloc, code),
            Kernel::Filter(filter) => copy_filter(alloc, filter),
            Kernel::Duplicate(ports) => Ok(Kernel::Duplicate(*ports)),
            Kernel::Deal(weights) => copy_deal(alloc, weights),
            Kernel::Collect(weights) => copy_collect(alloc, weights),
            Kernel::Packed(inner) => inner.packed_copy(alloc),
            Kernel::Unpack(ports) => Ok(Kernel::Unpack(*ports)),
            Kernel::Window(window) => Ok(Kernel::Window(*window)),
            Kernel::Select(cond) => copy_select(alloc, cond),
            Kernel::Project(list) => copy_project(alloc, list),
            Kernel::Cross => Ok(Kernel::Cross),
            Kernel::Streamer(streamer) => Ok(Kernel::Streamer(*streamer)),
            Kernel::Tally => Ok(Kernel::Tally),
            Kernel::Fused { first, second, at } => {
                let first = first.copy(alloc)?;
                second.copy_behind(alloc, first, *at)
            }
        }
    }

    // A kernel that packs what a copy of this one gives.
    #[cycle(copy)]
    fn packed_copy(&self, alloc: Global) -> Result<Kernel, NoMemory>
        ensures { IfOk result (λ copy. kern_of copy ≡ packed (kern_of self.now)) }
    {
        let inner = self.copy(alloc)?;
        Ok(Kernel::Packed(Box::new(alloc, inner)?))
    }

    // A copy of this one behind a port of the first.
    #[cycle(copy)]
    fn copy_behind(&self, alloc: Global, first: Kernel, at: u32) -> Result<Kernel, NoMemory>
        ensures { IfOk result (λ both. kern_of both ≡ fused (kern_of first) (kern_of self.now) at) }
    {
        let first = Box::new(alloc, first)?;
        let second = Box::new(alloc, self.copy(alloc)?)?;
        Ok(Kernel::Fused { first, second, at })
    }
}

// A code kernel of the same meaning.
fn copy_code(alloc: Global, kernel: &CodeKernel) -> Result<Kernel, NoMemory>
    ensures { IfOk result (λ copy. kern_of copy ≡ code (code_form kernel.now)) }
{
    Ok(Kernel::Code(kernel.copy(alloc)?))
}

// A filter of the same meaning.
fn copy_filter(alloc: Global, kernel: &Filter) -> Result<Kernel, NoMemory>
    ensures { IfOk result (λ copy. kern_of copy ≡ filter (filter_form kernel.now)) }
{
    Ok(Kernel::Filter(kernel.copy(alloc)?))
}

// A kernel that deals by the same weights.
fn copy_deal(alloc: Global, weights: &Numbers) -> Result<Kernel, NoMemory>
    ensures { IfOk result (λ copy. kern_of copy ≡ deal weights.now) }
{
    Ok(Kernel::Deal(weights.copy(alloc)?))
}

// A kernel that collects by the same weights.
fn copy_collect(alloc: Global, weights: &Numbers) -> Result<Kernel, NoMemory>
    ensures { IfOk result (λ copy. kern_of copy ≡ collect weights.now) }
{
    Ok(Kernel::Collect(weights.copy(alloc)?))
}

// A kernel that keeps the same rows.
fn copy_select(alloc: Global, cond: &Formula) -> Result<Kernel, NoMemory>
    ensures { IfOk result (λ copy. kern_of copy ≡ select (term cond.now)) }
{
    Ok(Kernel::Select(cond.copy(alloc)?))
}

// A kernel that gives the same values.
fn copy_project(alloc: Global, list: &Formulas) -> Result<Kernel, NoMemory>
    ensures { IfOk result (λ copy. kern_of copy ≡ project (terms list.now)) }
{
    Ok(Kernel::Project(list.copy(alloc)?))
}
