//! Laws over the definitions alone.
ghost use Rattle.rate_code.specs.Cause.{StopIsTheEnd};

/// Where the walk over the operators goes to its end, nothing but want of room is told to stop it.
#[tactic(auto, using(crate::proofs::Causes::stop_is_the_end))]
pub fn stop_is_the_end()
    ensures { StopIsTheEnd }
{}
