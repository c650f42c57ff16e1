// Runs of bodies whose first slots are kept.
ghost use Rattle.std.specs.Prelude.{◌≡◌, ◌-◌, ◌≤◌, ◌++◌, length, OnOk, OnErr};
ghost use Rattle.river_base.specs.Grew.{GrewByPrefix};
ghost use Rattle.work_code.specs.Steps.{code_body};
ghost use Rattle.kern_rows.specs.Needs.{CanRun};
ghost use Rattle.kern_rows.specs.Runs.{slots_from, run_kept as kept_run};

use river_base::{NoMemory, Numbers};
use work_code::{Code, Emitted, run_code};

// Zeros come behind the kept slots, up to so many.
fn add_zeros(slots: &mut Numbers, count: usize) -> Result<(), NoMemory>
    requires { length slots.old ≤ count }
    ensures { OnOk result (slots.new ≡ slots_from count slots.old) }
{
    for _i in slots.len()..count {
        slots.push(0)?;
    }
    Ok(())
}

/// Runs a body on the values of a row: appends what it pushes, and keeps its first slots. Where
/// there is no memory, a part of the pushes was appended, and nothing is said of the slots.
pub fn run_kept(
    code: &Code,
    kept: &mut Numbers,
    input: &[i64],
    out: &mut Emitted,
) -> Result<(), NoMemory>
    requires { CanRun (length input.now) (code_body code.now) (length kept.old) }
    ensures pushes { OnOk result (out.new ≡ out.old ++ (kept_run (code_body code.now) kept.old input.now).pushes) }
    ensures slots { OnOk result (kept.new ≡ (kept_run (code_body code.now) kept.old input.now).slots) }
    ensures err { OnErr result (GrewByPrefix out.old (kept_run (code_body code.now) kept.old input.now).pushes out.new) }
{
    let count = kept.len();
    add_zeros(kept, code.slots as usize)?;
    run_code(code, input, kept.as_mut_slice(), out)?;
    kept.truncate(count);
    Ok(())
}
