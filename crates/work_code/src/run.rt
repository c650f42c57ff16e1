// Runs bodies.
ghost use Rattle.std.specs.Prelude.{◌≡◌, ◌++◌, length, OnOk, OnErr};
ghost use Rattle.river_base.specs.Grew.{GrewByPrefix};
ghost use Rattle.work_code.specs.Acts.{act_step, act_steps};
ghost use Rattle.work_code.specs.Steps.{code_body};
ghost use Rattle.work_code.specs.Ran.{ran, ran_once, IsStepWithin, IsBodyWithin};

use crate::acts::{Act, Acts};
use crate::calc::value_of;
use crate::{Code, Emitted};
use river_base::NoMemory;

/// Runs a body on the values of a row: appends what it pushes, in order, and leaves the last slots. All its places
/// are among the values and the slots, and each row that it pushes has 1 to 16 values. Where there is no memory, a
/// part of the pushes was appended, and nothing is said of the slots.
pub fn run_code(
    c: &Code,
    input: &[i64],
    slots: &mut [i64],
    out: &mut Emitted,
) -> Result<(), NoMemory>
    requires { IsBodyWithin (length input.now) (length slots.old) (code_body c.now).steps }
    ensures pushes { OnOk result (out.new ≡ out.old ++ (ran (code_body c.now).steps input.now slots.old).pushes) }
    ensures slots { OnOk result (slots.new ≡ (ran (code_body c.now).steps input.now slots.old).slots) }
    ensures err { OnErr result (GrewByPrefix out.old (ran (code_body c.now).steps input.now slots.old).pushes out.new) }
{
    run_steps(c.body.acts(), input, slots, out)
}

#[cycle(run)]
fn run_steps(
    body: &Acts,
    input: &[i64],
    slots: &mut [i64],
    out: &mut Emitted,
) -> Result<(), NoMemory>
    requires { IsBodyWithin (length input.now) (length slots.old) (act_steps body.now) }
    ensures pushes { OnOk result (out.new ≡ out.old ++ (ran (act_steps body.now) input.now slots.old).pushes) }
    ensures slots { OnOk result (slots.new ≡ (ran (act_steps body.now) input.now slots.old).slots) }
    ensures err { OnErr result (GrewByPrefix out.old (ran (act_steps body.now) input.now slots.old).pushes out.new) }
{
    for s in body.as_slice() {
        run_step(s, input, slots, out)?;
    }
    Ok(())
}

#[cycle(run)]
fn run_step(s: &Act, input: &[i64], slots: &mut [i64], out: &mut Emitted) -> Result<(), NoMemory>
    requires { IsStepWithin (length input.now) (length slots.old) (act_step s.now) }
    ensures pushes { OnOk result (out.new ≡ out.old ++ (ran_once (act_step s.now) input.now slots.old).pushes) }
    ensures slots { OnOk result (slots.new ≡ (ran_once (act_step s.now) input.now slots.old).slots) }
    ensures err { OnErr result (GrewByPrefix out.old (ran_once (act_step s.now) input.now slots.old).pushes out.new) }
{
    match s {
        Act::Set { slot, value } => {
            slots[*slot as usize] = value_of(value, input, slots);
            Ok(())
        }
        Act::Push { port, values } => out.push_row(*port, values.as_slice(), input, slots),
        Act::If { cond, yes, no } => {
            if value_of(cond, input, slots) != 0 {
                run_steps(yes, input, slots, out)
            } else {
                run_steps(no, input, slots, out)
            }
        }
    }
}
