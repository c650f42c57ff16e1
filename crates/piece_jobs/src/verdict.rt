// What follows from what came of the jobs.
ghost use Rattle.std.specs.Prelude.{Some, None, IfSome, IfNone};
ghost use Rattle.std.specs.List.{AllByRecursion};
ghost use Rattle.piece_jobs.specs.Verdict.{IsVerdict, IsThere, IsDone, BehindSome};
ghost use Rattle.piece_jobs.specs.declared.came.Ending.TheVariants.{Refused};

use crate::{Came, Ending};

/// What follows from what came of the jobs, in the order of their numbers.
#[derive(Clone, Copy, Debug, PartialEq, Eq)]
pub enum Verdict {
    /// The job at this place, from 0, has not come; all before it have.
    Lacking { place: usize },
    /// All have come, and the one at this place is the first that was refused, in this try.
    Refused { place: usize, turn: u32 },
    /// All are done.
    Done,
}

/// What follows from what came of the jobs.
pub fn judge(found: &[Option<Came>]) -> Verdict
    ensures { IsVerdict found.now result }
{
    match first_lacking(found) {
        Some(place) => Verdict::Lacking { place },
        None => of_all(found),
    }
}

// What follows where all have come.
fn of_all(found: &[Option<Came>]) -> Verdict
    requires { AllByRecursion IsThere found.now }
    ensures { IsVerdict found.now result }
{
    match first_refused(found) {
        Some((place, turn)) => Verdict::Refused { place, turn },
        None => Verdict::Done,
    }
}

// The place of the first job that has not come.
#[tactic(auto, using(crate::proofs::Loops::fronts))]
fn first_lacking(found: &[Option<Came>]) -> Option<usize>
    ensures some { IfSome result (λ place. BehindSome IsThere place None found.now) }
    ensures none { IfNone result (AllByRecursion IsThere found.now) }
{
    for place in 0..found.len() {
        if found[place].is_none() {
            return Some(place);
        }
    }
    None
}

// The place and the try of the first job that is not done.
#[tactic(auto, using(crate::proofs::Loops::fronts))]
fn first_refused(found: &[Option<Came>]) -> Option<(usize, u32)>
    requires { AllByRecursion IsThere found.now }
    ensures some { IfSome result (λ at. BehindSome IsDone at.0 (Some (record { turn = at.1; ending = Refused })) found.now) }
    ensures none { IfNone result (AllByRecursion IsDone found.now) }
{
    for place in 0..found.len() {
        if let Some(came) = found[place] {
            match came.ending {
                Ending::Refused => return Some((place, came.turn)),
                Ending::Done => {}
            }
        }
    }
    None
}
