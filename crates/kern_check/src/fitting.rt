// Whether a kernel fits the types of its ports and its variables.
ghost use Rattle.std.specs.Prelude.{◌≡◌, ◌<◌, ℕ, Option, Some, length, slice_get, IfOk, IsTrue, ◌↔◌};
ghost use Rattle.river_kernels.specs.Kern.{kern_of, packed};
ghost use Rattle.river_kernels.specs.Fits.{Fits};
ghost use Rattle.river_kernels.specs.declared.types.Types.{Types as TypesFound};
ghost use Rattle.river_kernels.specs.Types.{types_of, packed_of, joined_types, fused_types, MayAnswer};

use crate::inference::{
    of_code, of_collect, of_cross, of_deal, of_duplicate, of_filter, of_project, of_select,
    of_streamer, of_tally, of_unpack, of_window, one_pack, only_flat, splice,
};
use crate::ports::{are_same_types, are_same_vars};
use river_base::{NoMemory, QueueType};
use river_kernels::{Kernel, Types, VarKind};
use std::alloc::Global;

// The types of the kernel's output ports and its variables, where it is well formed, may read queues of these types, and has at
// most so many output ports.
#[cycle(types)]
fn types(
    alloc: Global,
    kernel: &Kernel,
    reads: &[QueueType],
    most: usize,
) -> Result<Option<Types>, NoMemory>
    ensures { IfOk result (λ found. MayAnswer most (types_of (kern_of kernel.now) reads.now) found) }
{
    match kernel {
        Kernel::Code(k) => of_code(alloc, k, reads),
        Kernel::Filter(f) => of_filter(alloc, f, reads),
        Kernel::Duplicate(ports) => of_duplicate(alloc, *ports, reads, most),
        Kernel::Deal(weights) => of_deal(alloc, weights.as_slice(), reads),
        Kernel::Collect(weights) => of_collect(alloc, weights.as_slice(), reads),
        Kernel::Packed(inner) => packed_types(alloc, inner, reads),
        Kernel::Unpack(ports) => of_unpack(alloc, *ports, reads),
        Kernel::Window(w) => of_window(alloc, w, reads),
        Kernel::Select(cond) => of_select(alloc, cond.expr(), reads),
        Kernel::Project(list) => of_project(alloc, list.exprs(), reads),
        Kernel::Cross => of_cross(alloc, reads),
        Kernel::Streamer(s) => of_streamer(alloc, s, reads),
        Kernel::Tally => of_tally(alloc, reads),
        Kernel::Fused { first, second, at } => {
            // No memory holds more ports than this.
            if most == usize::MAX {
                return Err(NoMemory);
            }
            let Some(one) = types(alloc, first, reads, most + 1)? else {
                return Ok(None)
            };
            types_behind(alloc, &one, second, *at, most)
        }
    }
}

// The types of a kernel that packs what this one gives.
#[cycle(types)]
fn packed_types(
    alloc: Global,
    inner: &Kernel,
    reads: &[QueueType],
) -> Result<Option<Types>, NoMemory>
    ensures { IfOk result (λ found. found ≡ types_of (packed (kern_of inner.now)) reads.now) }
{
    let Some(t) = only_flat(reads) else {
        return Ok(None)
    };
    pack_of(alloc, types(alloc, inner, &[QueueType::Flat(t)], 1)?)
}

// The types of a kernel behind a port of another, where that one's types were found.
#[cycle(types)]
fn types_behind(
    alloc: Global,
    one: &Types,
    second: &Kernel,
    at: u32,
    most: usize,
) -> Result<Option<Types>, NoMemory>
    ensures { IfOk result (λ found. (told : Option TypesFound) (room : ℕ) → MayAnswer room told (Some one.now)
        → MayAnswer most (fused_types at told (types_of (kern_of second.now))) found) }
{
    let Some(middle) = port_type(one, at) else {
        return Ok(None)
    };
    let two = types(alloc, second, &[middle], most)?;
    both(alloc, one, two, at)
}

// One pack of what the kernel inside gives, where it has types.
fn pack_of(alloc: Global, within: Option<Types>) -> Result<Option<Types>, NoMemory>
    ensures { IfOk result (λ found. found ≡ packed_of within) }
{
    match within {
        None => Ok(None),
        Some(within) => one_pack(alloc, &within),
    }
}

// The second kernel behind a port of the first, where it has types.
fn both(alloc: Global, one: &Types, two: Option<Types>, at: u32) -> Result<Option<Types>, NoMemory>
    requires { at < length one.now.outs }
    ensures { IfOk result (λ found. found ≡ joined_types at one.now two) }
{
    match two {
        None => Ok(None),
        Some(two) => Ok(Some(splice(alloc, one, &two, at as usize)?)),
    }
}

// The type of an output port.
fn port_type(found: &Types, at: u32) -> Option<QueueType>
    ensures { result ≡ slice_get found.now.outs at }
{
    found.outs.as_slice().get(at as usize).copied()
}

// Whether these are the types and the variables that were found.
fn is_found(found: &Types, writes: &[QueueType], vars: &[VarKind]) -> bool
    ensures { IsTrue result ↔ ((found.now.outs ≡ writes.now) × (found.now.vars ≡ vars.now)) }
{
    are_same_types(found.outs.as_slice(), writes) && are_same_vars(found.vars.as_slice(), vars)
}

/// Whether the kernel is well formed, reads queues of these types, writes queues of these types, and has these variables, in the
/// order of its parts; all widths are 1 to 16, those of ports inside it included. Takes no more memory than the lists of types and
/// the kernel themselves, whatever numbers the kernel has.
pub fn fits(
    alloc: Global,
    kernel: &Kernel,
    reads: &[QueueType],
    writes: &[QueueType],
    vars: &[VarKind],
) -> Result<bool, NoMemory>
    ensures { IfOk result (λ fit. IsTrue fit ↔ Fits (kern_of kernel.now) reads.now writes.now vars.now) }
{
    match types(alloc, kernel, reads, writes.len())? {
        None => Ok(false),
        Some(found) => Ok(is_found(&found, writes, vars)),
    }
}
