//! Laws of nets, each the contract of a function that does nothing.
ghost use Rattle.fire_run.specs.Frames.{RoundsKeepBundles, RoundsKeepSeats, RoundsTellMoves};
ghost use Rattle.fire_run.specs.Whole.{IdleNetIsWhole, NetsMoveFew};

/// A net in which no operator has a pending or an untaken item gave all that the plan defines: the histories of the queues, the rows of
/// each operator in the logs, and how often each fired.
pub fn idle_net_is_whole()
    ensures { IdleNetIsWhole }
{}

/// The items that the tasks of a net took and sent are at most twice the items of the defined histories, at each moment.
pub fn nets_move_few()
    ensures { NetsMoveFew }
{}

/// After a round the bundles of a frame are bundles of this frame; and where none was refused each keeps what a bundle keeps, and they
/// tell whether anything moved.
pub fn rounds_keep_bundles()
    ensures seats { RoundsKeepSeats }
    ensures bundles { RoundsKeepBundles }
    ensures moves { RoundsTellMoves }
{}
