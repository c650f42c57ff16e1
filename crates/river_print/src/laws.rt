//! Laws over the definitions alone.
ghost use Rattle.river_print.specs.Laws.{PrintedIsRead, ValidIsRead, ReadIsPrintable, ReadIsReadAgain, CompiledIsReadAgain};

/// The printed text of a plan is in the grammar of River text, of version 2, and stands for the plan and the capacities of
/// its internal queues and for nothing else, wherever its names are names, its counts and values are such as a text has, its
/// capacities are 1 to 65,536, no window's range is below 0, and `if` nests at most 16 deep.
pub fn printed_is_read()
    ensures { PrintedIsRead }
{}

/// The printed text of a valid plan is in the grammar of River text and stands for the plan and the capacities of its
/// internal queues and for nothing else, exactly where its numbers lie in the ranges of their types, `if` nests at most 16
/// deep and no window's range is below 0.
pub fn printed_plans_are_read()
    ensures { ValidIsRead }
{}

/// What a text stands for has numbers in the ranges of their types, keeps these bounds and has capacities from 1 to 65,536, so
/// the printed text of a valid plan that was read, with the capacities that were read, stands for them and for nothing else.
pub fn read_plans_are_read_again()
    ensures bounds { ReadIsPrintable }
    ensures read { ReadIsReadAgain }
    ensures compiled { CompiledIsReadAgain }
{}
