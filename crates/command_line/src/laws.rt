//! Laws over the definitions alone.
ghost use Rattle.command_line.specs.Unasked.{WithoutTasks};

/// Where no word is `-L`, no run by tasks that wait is asked for.
#[tactic(auto, using(crate::proofs::Unasked::without_tasks))]
pub fn without_tasks()
    ensures { WithoutTasks }
{}
