//! Laws over the definitions alone.
ghost use Rattle.std.specs.Prelude.{◌≡◌, ℕ, List};
ghost use Rattle.river_outside.specs.Causes.{Rose};
ghost use Rattle.river_cli.specs.Does.{Does};
ghost use Rattle.river_cli.specs.Points.{points_of};
ghost use Rattle.run_pieces.specs.Driver.{AgainStaysUnderWay, DriverGivesTheWhole, DriverTellsTheWhole};
ghost use Rattle.run_pieces.specs.Grown.{AgainStaysGrowing, BegunIsGrowing, DriverGivesTheGrown, DriverKeepsTheFront, DriverTellsTheGrown};
ghost use Rattle.run_pieces.specs.Ran.{WordsAsk, WordsAskForNoScript, RunsPrint, RunsAreDone, RanPrints, GivesRun};
ghost use Rattle.run_pieces.specs.Refused.{RunsTellFaults, RefusalsAreFaults, GivesRefusal, FirstRefusalIsTheWholes};
ghost use Rattle.run_pieces.specs.Tool.{ToolGivesTheWhole, ToolGivesTheGrown};
ghost use Rattle.run_pieces.specs.Whole.{RiverGivesTheWhole};

use river_outside::{Shelf, Sink};

/// The words that `tools/pieces` gives ask for a run of a program over one input.
pub fn words_ask()
    ensures { WordsAsk }
{}

/// And for no script.
pub fn words_ask_for_no_script()
    ensures { WordsAskForNoScript }
{}

/// The text of a run that is done is what a run on the bytes of its input prints.
pub fn runs_print()
    ensures { RunsPrint }
{}

/// And such a run is done where there is such a text, and no script.
pub fn runs_are_done()
    ensures { RunsAreDone }
{}

/// What a call with status 0 wrote is what a run on the bytes of its input prints.
pub fn ran_prints()
    ensures { RanPrints }
{}

/// What `river` promises of a call with status 0, over a shelf and an output that tell, is that it ran so.
pub fn status_0_is_a_run<S: Shelf, O: Sink, E: Sink>()
    ensures { (words : List (List ℕ)) (shelf shelf' : S) (out out' : O) (err err' : E)
        → Does (points_of words) (S.held shelf) (shelf' ≡ shelf) (Rose S.stays_at_last (S.faults shelf) (S.faults shelf'))
        (O.taken out) (O.taken out') (Rose O.stays_at_last (O.faults out) (O.faults out'))
        (E.taken err) (E.taken err') (Rose E.stays_at_last (E.faults err) (E.faults err')) 0
        → GivesRun words (S.held shelf) (O.taken out) (O.taken out') }
{}

/// What is merged of what calls on the pieces of a file wrote is what the program means for the whole file.
pub fn river_gives_the_whole()
    ensures { RiverGivesTheWhole }
{}

/// So it is for the pieces that are taken of a file.
pub fn tool_gives_the_whole()
    ensures { ToolGivesTheWhole }
{}

/// And so for those of what a file has grown by, with what is kept of its old part.
pub fn tool_gives_the_grown()
    ensures { ToolGivesTheGrown }
{}

/// A run whose input has a fault is refused with it.
pub fn runs_tell_faults()
    ensures { RunsTellFaults }
{}

/// And a run that is refused has an input with the fault that is told.
pub fn refusals_are_faults()
    ensures { RefusalsAreFaults }
{}

/// What `river` promises of a call with status 1, over a shelf and an error output that tell, is that it was refused so.
pub fn status_1_is_a_refusal<S: Shelf, O: Sink, E: Sink>()
    ensures { (words : List (List ℕ)) (shelf shelf' : S) (out out' : O) (err err' : E)
        → Does (points_of words) (S.held shelf) (shelf' ≡ shelf) (Rose S.stays_at_last (S.faults shelf) (S.faults shelf'))
        (O.taken out) (O.taken out') (Rose O.stays_at_last (O.faults out) (O.faults out'))
        (E.taken err) (E.taken err') (Rose E.stays_at_last (E.faults err) (E.faults err')) 1
        → GivesRefusal words (S.held shelf) (E.taken err) (E.taken err') }
{}

/// The fault that the first refused call tells is that of the whole file, with the record's number in it.
pub fn first_refusal_is_the_wholes()
    ensures { FirstRefusalIsTheWholes }
{}

/// What the program `pieces` writes to be printed is what the program means for the whole file, where jobs that came whole are calls of `river`.
pub fn driver_gives_the_whole()
    ensures { DriverGivesTheWhole }
{}

/// Where some jobs are to be run once more, the work is still under way.
pub fn again_stays_under_way()
    ensures { AgainStaysUnderWay }
{}

/// What it tells of a refused job is the fault that the whole file has, with the record's number in it, or what the job told.
pub fn driver_tells_the_whole()
    ensures { DriverTellsTheWhole }
{}

/// Where a program has begun on what a file has grown by, the work on that is under way.
pub fn begun_is_growing()
    ensures { BegunIsGrowing }
{}

/// And it still is where some jobs are to be run once more.
pub fn again_stays_growing()
    ensures { AgainStaysGrowing }
{}

/// What is written to be printed then, with what is kept, is what the program means for the whole of the file.
pub fn driver_gives_the_grown()
    ensures { DriverGivesTheGrown }
{}

/// What is kept then is right for a front of the file, whether something was kept before or not.
pub fn driver_keeps_the_front()
    ensures { DriverKeepsTheFront }
{}

/// What is told of a refused job then is the fault that the whole of the file has, with the record's number in it, or what the job told.
pub fn driver_tells_the_grown()
    ensures { DriverTellsTheGrown }
{}
