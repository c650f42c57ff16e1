// The road from a program's file to the text that is written: each function is a point, or hands on to those of the next.
ghost use Rattle.std.specs.Prelude.{◌≡◌, ◌≤◌, List, length, IfOk, Some, Ok as found};
ghost use Rattle.river_outside.specs.Causes.{Rose};
ghost use Rattle.river_outside.specs.Order.{Fetch};
ghost use Rattle.river_outside.specs.Passes.{Answers, Passes, PassesAs};
ghost use Rattle.river_plan.specs.Caps.{AreCaps, first_cap};
ghost use Rattle.river_plan.specs.declared.caps.Cap.{Cap};
ghost use Rattle.river_print.specs.Printed.{plan_text};
ghost use Rattle.river_road.specs.Limits.{most_program};
ghost use Rattle.river_road.specs.Points.{of_show, of_scripted_show, of_mean, of_meaning, of_upgrade, of_program, of_script, plan_as_shown};
ghost use Rattle.river_road.specs.Source.{SourceProgram, IsPlanned, IsCompiled, HasSource};
ghost use Rattle.river_road.specs.Text.{large_program};

use crate::gathering::files_for;
use crate::language::{Compiled, Language};
use crate::layout::Layout;
use crate::meant::mean_text;
use crate::script::applied;
use crate::text;
use command_line::InWords;
use plan_classes::print_classes;
use river_base::{Bytes, Text};
use river_outside::{Shelf, Stop, fetch_turn};
use river_plan::{Caps, Plan};
use river_print::print_river;
use std::alloc::Global;

const MOST_PROGRAM: u64 = 1_048_576;

const MOST_SCRIPT: u64 = 65_536;

/// What `plan` prints: a program is compiled, and its plan is rewritten and shown.
pub fn show<L: Language, S: Shelf>(
    alloc: Global,
    file: &Text,
    name: &Option<Text>,
    shelf: &mut S,
) -> Result<Bytes, Stop>
    ensures later { S.faults shelf.old ≤ S.faults shelf.new }
    ensures passes { Passes (of_show L.source file.now name.now) (S.held shelf.old) (Rose S.stays_at_last (S.faults shelf.old) (S.faults shelf.new)) result }
{
    let compiled = compiled::<L, S>(alloc, file, shelf)?;
    show_scripted(alloc, name, compiled.plan, &compiled.caps, shelf)
}

/// What `upgrade` prints: a text is compiled, and its plan and its capacities are printed.
pub fn upgrade<L: Language, S: Shelf>(
    alloc: Global,
    file: &Text,
    shelf: &mut S,
) -> Result<Bytes, Stop>
    ensures later { S.faults shelf.old ≤ S.faults shelf.new }
    ensures passes { Passes (of_upgrade L.source file.now) (S.held shelf.old) (Rose S.stays_at_last (S.faults shelf.old) (S.faults shelf.new)) result }
{
    let compiled = compiled::<L, S>(alloc, file, shelf)?;
    upgraded(alloc, &compiled.plan, &compiled.caps)
}

/// What `mean` prints: a program is compiled, and what it means over its inputs is printed.
pub fn mean<L: Language, S: Shelf>(
    alloc: Global,
    file: &Text,
    ins: &InWords,
    header: bool,
    shelf: &mut S,
) -> Result<Bytes, Stop>
    ensures later { S.faults shelf.old ≤ S.faults shelf.new }
    ensures passes { Passes (of_mean L.source L.more file.now ins.now header) (S.held shelf.old)
        (Rose S.stays_at_last (S.faults shelf.old) (S.faults shelf.new)) result }
{
    let compiled = compiled::<L, S>(alloc, file, shelf)?;
    mean_over::<L, S>(alloc, ins, Layout::of::<L>(header), &compiled, shelf)
}

// The program is fetched and compiled.
pub(crate) fn compiled<L: Language, S: Shelf>(
    alloc: Global,
    file: &Text,
    shelf: &mut S,
) -> Result<Compiled<L::Program>, Stop>
    ensures stays { S.held shelf.new ≡ S.held shelf.old }
    ensures later { S.faults shelf.old ≤ S.faults shelf.new }
    ensures passes { PassesAs (IsCompiled L.stands) (of_program L.source file.now) (S.held shelf.old)
        (Rose S.stays_at_last (S.faults shelf.old) (S.faults shelf.new)) result }
{
    let text = fetch_program(alloc, file, shelf)?;
    L::compile(alloc, &text)
}

/// The text of a program is fetched.
pub fn fetch_program<S: Shelf>(alloc: Global, file: &Text, shelf: &mut S) -> Result<Bytes, Stop>
    ensures stays { S.held shelf.new ≡ S.held shelf.old }
    ensures later { S.faults shelf.old ≤ S.faults shelf.new }
    ensures within { IfOk result (λ text. length text ≤ most_program) }
    ensures passes { Passes (Fetch file.now most_program large_program) (S.held shelf.old)
        (Rose S.stays_at_last (S.faults shelf.old) (S.faults shelf.new)) result }
{
    let file = file.as_slice();
    fetch_turn(alloc, shelf, file, MOST_PROGRAM, text::LARGE_PROGRAM)
}

// A plan is rewritten, where a script is given, and shown.
fn show_scripted<S: Shelf>(
    alloc: Global,
    name: &Option<Text>,
    plan: Plan,
    caps: &Caps,
    shelf: &mut S,
) -> Result<Bytes, Stop>
    requires { AreCaps caps.now }
    ensures later { S.faults shelf.old ≤ S.faults shelf.new }
    ensures passes { (source : SourceProgram) → IsPlanned caps.now source plan
        → Passes (of_scripted_show name.now source) (S.held shelf.old) (Rose S.stays_at_last (S.faults shelf.old) (S.faults shelf.new)) result }
{
    let made = scripted(alloc, name, plan, shelf)?;
    shown(alloc, &made, caps)
}

/// A plan is rewritten, where a script is given; where there is none it is handed back.
pub(crate) fn scripted<S: Shelf>(
    alloc: Global,
    script: &Option<Text>,
    plan: Plan,
    shelf: &mut S,
) -> Result<Plan, Stop>
    ensures stays { S.held shelf.new ≡ S.held shelf.old }
    ensures later { S.faults shelf.old ≤ S.faults shelf.new }
    ensures passes { (caps : List Cap) (source : SourceProgram) → IsPlanned caps source plan
        → PassesAs (IsPlanned caps) (of_script script.now source) (S.held shelf.old)
        (Rose S.stays_at_last (S.faults shelf.old) (S.faults shelf.new)) result }
{
    match script {
        None => Ok(plan),
        Some(file) => rewritten(alloc, file.as_slice(), &plan, shelf),
    }
}

// The script is fetched and applied.
fn rewritten<S: Shelf>(alloc: Global, file: &[u8], plan: &Plan, shelf: &mut S) -> Result<Plan, Stop>
    ensures stays { S.held shelf.new ≡ S.held shelf.old }
    ensures later { S.faults shelf.old ≤ S.faults shelf.new }
    ensures passes { (caps : List Cap) (source : SourceProgram) → IsPlanned caps source plan.now
        → PassesAs (IsPlanned caps) (of_script (Some file.now) source) (S.held shelf.old)
        (Rose S.stays_at_last (S.faults shelf.old) (S.faults shelf.new)) result }
{
    let text = fetch_turn(alloc, shelf, file, MOST_SCRIPT, text::LARGE_SCRIPT)?;
    applied(alloc, plan, &text)
}

// The text of a plan with these capacities, and its lock classes.
fn shown(alloc: Global, plan: &Plan, caps: &Caps) -> Result<Bytes, Stop>
    requires { AreCaps caps.now }
    ensures { Answers (found (plan_as_shown caps.now plan.now)) result }
{
    let mut text = print_river(alloc, plan, caps)?;
    print_classes(alloc, plan, &mut text)?;
    Ok(text)
}

// The text of a plan with these capacities.
fn upgraded(alloc: Global, plan: &Plan, caps: &Caps) -> Result<Bytes, Stop>
    requires { AreCaps caps.now }
    ensures { Answers (found (plan_text (first_cap caps.now) plan.now)) result }
{
    Ok(print_river(alloc, plan, caps)?)
}

// What a program means over its inputs is printed, without a run of its plan.
fn mean_over<L: Language, S: Shelf>(
    alloc: Global,
    ins: &InWords,
    layout: Layout,
    compiled: &Compiled<L::Program>,
    shelf: &mut S,
) -> Result<Bytes, Stop>
    requires { HasSource L.stands compiled.now }
    ensures later { S.faults shelf.old ≤ S.faults shelf.new }
    ensures passes { (source : SourceProgram) → IsCompiled L.stands source compiled.now
        → Passes (of_meaning ins.now layout source) (S.held shelf.old) (Rose S.stays_at_last (S.faults shelf.old) (S.faults shelf.new)) result }
{
    let files = files_for(alloc, ins, layout, &compiled.plan, shelf)?;
    Ok(mean_text::<L>(alloc, compiled, files)?)
}
