// One firing of a kernel that has no kernel inside.
ghost use Rattle.std.specs.Prelude.{◌↔◌, IsTrue, OnOk};
ghost use Rattle.river_kernels.specs.Kern.{kern_of};
ghost use Rattle.brooklet_step.specs.Given.{IsLeafKernel, CanTake, FiresAt};

use crate::bag::{fire_cross, fire_project, fire_select, fire_streamer, fire_window};
use crate::emit::{Emit, Spare};
use crate::joining::{fire_collect, fire_unpack};
use crate::leaf::{fire_code, fire_deal, fire_filter, fire_tally};
use crate::state::State;
use river_base::{Item, NoMemory};
use river_plan::Kernel;
use std::alloc::Global;

/// Whether a kernel has no kernel inside.
pub(crate) fn is_leaf(kernel: &Kernel) -> bool
    ensures { IsTrue result ↔ IsLeafKernel (kern_of kernel.now) }
{
    match kernel {
        Kernel::Packed(_) | Kernel::Fused { .. } => false,
        _ => true,
    }
}

/// Such a kernel fires, under whatever types fit.
pub(crate) fn fire_leaf(
    alloc: Global,
    kernel: &Kernel,
    port: u32,
    item: Item,
    states: &mut [State],
    out: &mut Emit,
    spare: &mut Spare,
) -> Result<(), NoMemory>
    requires leaf { IsLeafKernel (kern_of kernel.now) }
    requires can { CanTake (kern_of kernel.now) port item states.old out.old }
    ensures { OnOk result (FiresAt (kern_of kernel.now) port item out.old out.new states.old states.new) }
{
    match kernel {
        Kernel::Code(code) => fire_code(alloc, code, item, states, out, spare),
        Kernel::Filter(filter) => fire_filter(alloc, filter, item, &mut states[0], out, spare),
        Kernel::Duplicate(_) => out.give_everywhere(alloc, item),
        Kernel::Deal(weights) => fire_deal(alloc, weights, item, &mut states[0], out),
        Kernel::Collect(weights) => {
            fire_collect(alloc, weights, port, item, &mut states[0], out, spare)
        }
        Kernel::Unpack(ports) => fire_unpack(alloc, *ports, port, item, &mut states[0], out, spare),
        Kernel::Window(window) => fire_window(alloc, window, item, &mut states[0], out, spare),
        Kernel::Select(cond) => fire_select(alloc, cond, item, out, spare),
        Kernel::Project(list) => fire_project(alloc, list, item, out, spare),
        Kernel::Cross => fire_cross(alloc, port, item, &mut states[0], out, spare),
        Kernel::Streamer(streamer) => {
            fire_streamer(alloc, streamer, item, &mut states[0], out, spare)
        }
        Kernel::Tally => fire_tally(item, out),
        Kernel::Packed(_) | Kernel::Fused { .. } => unreachable!(),
    }
}
