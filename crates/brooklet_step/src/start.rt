// The states before the first firing.
ghost use Rattle.std.specs.Prelude.{◌≡◌, [], ◌∷◌, length, IfOk};
ghost use Rattle.kern_bags.specs.Kept.{window_start};
ghost use Rattle.kern_bags.specs.Following.{cross_start};
ghost use Rattle.kern_rows.specs.Dealing.{dealt_start};
ghost use Rattle.kern_rows.specs.Forms.{code_form, filter_form};
ghost use Rattle.kern_rows.specs.Joined.{join_start};
ghost use Rattle.kern_rows.specs.Needs.{CanFilter};
ghost use Rattle.kern_rows.specs.Runs.{filter_start};
ghost use Rattle.river_kernels.specs.Kern.{kern_of};
ghost use Rattle.brooklet_model.specs.Firings.{Buffered};
ghost use Rattle.brooklet_model.specs.Fire.{first_slots};
ghost use Rattle.brooklet_model.specs.Shapes.{IsFormed};
ghost use Rattle.brooklet_step.specs.declared.state.State.TheVariants as variant;
ghost use Rattle.brooklet_step.specs.Given.{IsLeafKernel};
ghost use Rattle.brooklet_step.specs.Took.{IsBlank};
ghost use Rattle.brooklet_step.specs.Initial.{AreFirstStates};
ghost use Rattle.brooklet_step.specs.Stands.{StandsForSlots, StandsForFilter};

use crate::emit::Emit;
use crate::firing::blank_for;
use crate::single::is_leaf;
use crate::state::{State, States};
use kern_bags::{Cross, Streamer, Window};
use kern_rows::{CodeKernel, Collect, Deal, Filter, Unpack};
use river_base::{NoMemory, Numbers};
use river_plan::Kernel;
use std::alloc::Global;

fn only(alloc: Global, state: State) -> Result<States, NoMemory>
    ensures { IfOk result (λ states. states ≡ state ∷ []) }
{
    let mut states = States::new(alloc);
    states.push(state)?;
    Ok(states)
}

#[tactic(auto, using(crate::proofs::Starts::no_slots, crate::proofs::Starts::some_slots))]
fn code_states(alloc: Global, code: &CodeKernel) -> Result<States, NoMemory>
    ensures { IfOk result (λ states. StandsForSlots (code_form code.now).starts states (first_slots (code_form code.now).starts)) }
{
    if code.starts.is_empty() {
        Ok(States::new(alloc))
    } else {
        only(alloc, State::Slots(code.start(alloc)?))
    }
}

fn filter_states(alloc: Global, filter: &Filter) -> Result<States, NoMemory>
    requires { CanFilter (filter_form filter.now) }
    ensures { IfOk result (λ states. StandsForFilter (filter_form filter.now) states (Buffered (filter_start (filter_form filter.now)) ∷ [])) }
{
    let state = filter.start(alloc)?;
    only(alloc, State::Filter(state))
}

fn deal_states(alloc: Global, weights: &Numbers) -> Result<States, NoMemory>
    ensures { IfOk result (λ states. states ≡ variant.Deal (dealt_start (length weights.now)) ∷ []) }
{
    let state = Deal::start(alloc, weights)?;
    only(alloc, State::Deal(state))
}

fn collect_states(alloc: Global, weights: &Numbers) -> Result<States, NoMemory>
    ensures { IfOk result (λ states. states ≡ variant.Join (join_start (length weights.now)) ∷ []) }
{
    let state = Collect::start(alloc, weights)?;
    only(alloc, State::Join(state))
}

fn unpack_states(alloc: Global, ports: u32) -> Result<States, NoMemory>
    ensures { IfOk result (λ states. states ≡ variant.Join (join_start ports) ∷ []) }
{
    let state = Unpack::start(alloc, ports)?;
    only(alloc, State::Join(state))
}

fn window_states(alloc: Global, window: &Window) -> Result<States, NoMemory>
    ensures { IfOk result (λ states. states ≡ variant.Window window_start ∷ []) }
{
    let state = window.start(alloc)?;
    only(alloc, State::Window(state))
}

fn cross_states(alloc: Global) -> Result<States, NoMemory>
    ensures { IfOk result (λ states. states ≡ variant.Cross cross_start ∷ []) }
{
    let state = Cross::start(alloc)?;
    only(alloc, State::Cross(state))
}

fn streamer_states(alloc: Global, streamer: &Streamer) -> Result<States, NoMemory>
    ensures { IfOk result (λ states. states ≡ variant.Streamer [] ∷ []) }
{
    let state = streamer.start(alloc)?;
    only(alloc, State::Streamer(state))
}

// The first states of a kernel without a kernel inside.
fn leaf_states(alloc: Global, kernel: &Kernel) -> Result<States, NoMemory>
    requires leaf { IsLeafKernel (kern_of kernel.now) }
    requires formed { IsFormed (kern_of kernel.now) }
    ensures { IfOk result (AreFirstStates (kern_of kernel.now)) }
{
    match kernel {
        Kernel::Code(code) => code_states(alloc, code),
        Kernel::Filter(filter) => filter_states(alloc, filter),
        Kernel::Duplicate(_) | Kernel::Select(_) | Kernel::Project(_) | Kernel::Tally => {
            Ok(States::new(alloc))
        }
        Kernel::Deal(weights) => deal_states(alloc, weights),
        Kernel::Collect(weights) => collect_states(alloc, weights),
        Kernel::Unpack(ports) => unpack_states(alloc, *ports),
        Kernel::Window(window) => window_states(alloc, window),
        Kernel::Cross => cross_states(alloc),
        Kernel::Streamer(streamer) => streamer_states(alloc, streamer),
        Kernel::Packed(_) | Kernel::Fused { .. } => unreachable!(),
    }
}

/// The states of a kernel before its first firing.
pub fn states_of(alloc: Global, kernel: &Kernel) -> Result<States, NoMemory>
    requires { IsFormed (kern_of kernel.now) }
    ensures { IfOk result (AreFirstStates (kern_of kernel.now)) }
{
    if is_leaf(kernel) {
        return leaf_states(alloc, kernel);
    }
    match kernel {
        Kernel::Packed(inner) => states_of(alloc, inner),
        Kernel::Fused { first, second, .. } => {
            let mut states = states_of(alloc, first)?;
            states.append(states_of(alloc, second)?)?;
            Ok(states)
        }
        _ => unreachable!(),
    }
}

/// The states of a kernel before its first firing, and an empty list for each of its ports and tables. The states stand for the
/// first ones of the definition, from which firings may begin, and under each choice of types that the kernel fits they fit: the
/// kernel can fire.
pub fn first_states(alloc: Global, kernel: &Kernel) -> Result<(States, Emit), NoMemory>
    requires { IsFormed (kern_of kernel.now) }
    ensures states { IfOk result (λ both. AreFirstStates (kern_of kernel.now) both.0) }
    ensures emit { IfOk result (λ both. IsBlank (kern_of kernel.now) both.1) }
{
    let states = states_of(alloc, kernel)?;
    let emit = blank_for(alloc, kernel)?;
    Ok((states, emit))
}
