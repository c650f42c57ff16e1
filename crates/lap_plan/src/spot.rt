// The period of a program.
ghost use Rattle.std.specs.Prelude.{◌<◌, ◌^◌, length, codes, IfOk, IfErr};
ghost use Rattle.rate_code.specs.Walked.{is_known};
ghost use Rattle.lap_plan.specs.Overlap.{IsOverlapOf, WhyNoLaps, WhyNoSpot, IsOverlapBy, WhyNoOverlapBy};

use crate::no_laps::NoLaps;
use piece_work::WorkFault;
use rate_code::cause::NoRate;
use rate_code::overlap::{NoOverlap, Overlap, overlap_of};
use rate_code::queues::Spot;
use rate_code::walk::rate_of;
use river_base::{Bytes, Name};
use river_plan::Plan;
use std::alloc::Global;
use streamit_front::{StreamitFault, compile_streamit};
use text_forms::TextFault;

/// How pieces of at most so many records of the input of a program overlap, by its text; nothing where the program is refused.
///
/// # Errors
///
/// Why it has no period, or why no pieces overlap so; `Work` where there is no memory.
pub fn overlap_in(alloc: Global, text: &Bytes, size: u32) -> Result<Option<Overlap>, NoLaps>
    requires { length text.now < 2 ^ 32 }
    ensures overlap { IfOk result (IsOverlapOf text.now size) }
    ensures why { IfErr result (WhyNoLaps text.now size) }
{
    match compile_streamit(alloc, text) {
        Ok((_, plan)) => overlap_by(alloc, &plan, size),
        Err(StreamitFault::Text(TextFault::NoMemory)) => Err(NoLaps::Work(WorkFault::NoMemory)),
        Err(_) => Ok(None),
    }
}

// The same of a plan.
fn overlap_by(alloc: Global, plan: &Plan, size: u32) -> Result<Option<Overlap>, NoLaps>
    ensures overlap { IfOk result (IsOverlapBy plan.now.ops size) }
    ensures why { IfErr result (WhyNoOverlapBy plan.now.ops size) }
{
    let spot = spot_of(alloc, plan)?;
    match overlap_of(spot, size) {
        Ok(overlap) => Ok(Some(overlap)),
        Err(NoOverlap::Finite) => Err(NoLaps::Finite),
        Err(NoOverlap::Long) => Err(NoLaps::Long),
    }
}

// What is known of the output of a plan.
#[tactic(auto, unfolding(river_base::specs::Name::is_word, river_base::specs::Name::is_letter, river_base::specs::Name::is_digit))]
fn spot_of(alloc: Global, plan: &Plan) -> Result<Spot, NoLaps>
    ensures known { IfOk result (is_known plan.now.ops (codes "in") (codes "out")) }
    ensures why { IfErr result (WhyNoSpot plan.now.ops) }
{
    let input = Name::of(b"in");
    let output = Name::of(b"out");
    match rate_of(alloc, plan.raw().ops.as_slice(), &input, &output) {
        Ok(Some(spot)) => Ok(spot),
        Ok(None) => Err(NoLaps::Rate(NoRate::Lacks(output))),
        Err(NoRate::NoMemory) => Err(NoLaps::Work(WorkFault::NoMemory)),
        Err(why) => Err(NoLaps::Rate(why)),
    }
}
