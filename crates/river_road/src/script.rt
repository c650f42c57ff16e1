// A script, applied to a plan.
ghost use Rattle.std.specs.Prelude.{◌≤◌, List, length};
ghost use Rattle.river_outside.specs.Passes.{AnswersAs};
ghost use Rattle.river_script.specs.Meaning.{rewritten as rewritten_plan};
ghost use Rattle.river_road.specs.Limits.{most_script};
ghost use Rattle.river_road.specs.Points.{with_plan};
ghost use Rattle.river_road.specs.Source.{SourceProgram, IsPlanned};
ghost use Rattle.river_plan.specs.declared.caps.Cap.{Cap};

use crate::text;
use river_base::Bytes;
use river_outside::Stop;
use river_plan::Plan;
use river_script::{ScriptFault, apply_script};
use std::alloc::Global;
use text_forms::TextFault;

/// The plan that a script makes of a plan, or its refusal.
pub(crate) fn applied(alloc: Global, plan: &Plan, text: &Bytes) -> Result<Plan, Stop>
    requires { length text.now ≤ most_script }
    ensures { (caps : List Cap) (source : SourceProgram) → IsPlanned caps source plan.now
        → AnswersAs (IsPlanned caps) (with_plan source (rewritten_plan source.plan text.now)) result }
{
    // The lists of a plan are valid, which the law of scripts asks for.
    let _lists = plan.raw();
    match apply_script(alloc, plan, text) {
        Ok(made) => Ok(made),
        Err(ScriptFault::Text(TextFault::NoMemory)) => Err(Stop::NoMemory),
        Err(fault) => Err(Stop::Refused(text::script(alloc, fault)?)),
    }
}
