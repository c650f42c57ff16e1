//! Laws over the definitions alone: what a status says.
ghost use Rattle.piece_cli.specs.Laws.{ElevenIsAgain, FourIsUnwritten, TenIsBegun, TenIsGrown, TwoIsUsage, ZeroIsDone, ZeroIsPrinted};

/// The first call answers 10 only where the program has begun.
#[tactic(auto, using(crate::proofs::Statuses::ten_is_begun))]
pub fn ten_is_begun()
    ensures { TenIsBegun }
{}

/// So where something may be kept.
#[tactic(auto, using(crate::proofs::Statuses::ten_is_grown))]
pub fn ten_is_grown()
    ensures { TenIsGrown }
{}

/// A call between answers 0 only where all is done.
#[tactic(auto, using(crate::proofs::Statuses::zero_is_done))]
pub fn zero_is_done()
    ensures { ZeroIsDone }
{}

/// And 11 only where jobs are to be run once more.
#[tactic(auto, using(crate::proofs::Statuses::eleven_is_again))]
pub fn eleven_is_again()
    ensures { ElevenIsAgain }
{}

/// The last call answers 0 only where all was printed.
#[tactic(auto, using(crate::proofs::Statuses::zero_is_printed))]
pub fn zero_is_printed()
    ensures { ZeroIsPrinted }
{}

/// 2 is of words that are no sentence alone.
#[tactic(auto, using(crate::proofs::Statuses::two_is_usage))]
pub fn two_is_usage()
    ensures { TwoIsUsage }
{}

/// 4 says that something was not written: to the folder, to the output, or to the error output.
#[tactic(auto, using(crate::proofs::Statuses::four_is_unwritten))]
pub fn four_is_unwritten()
    ensures { FourIsUnwritten }
{}
