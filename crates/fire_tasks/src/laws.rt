//! Laws of tasks, each the contract of a function that does nothing.
ghost use Rattle.fire_tasks.specs.Joins.{TasksJoin};
ghost use Rattle.fire_tasks.specs.Facts.{SettledIsNet, NumbersAreFew};
ghost use Rattle.fire_tasks.specs.Steps.{MovesJoin};

/// From what each task keeps of itself, and what the rings tell, there is a word for each operator that its items stand for; no
/// item failed its test; and the tasks are a bounded state of the plan, with the numbers that they have.
pub fn tasks_join()
    ensures { TasksJoin }
{}

/// Tasks that keep their facts, one for each operator, with settled rings between them, are a net.
pub fn settled_is_net()
    ensures { SettledIsNet }
{}

/// The items that they took and sent are at most twice the items of the defined histories.
pub fn numbers_are_few()
    ensures { NumbersAreFew }
{}

/// Where the last task that has something to do sends or takes one item, that is a move of the last operator that has a pending or an
/// untaken item, by the definition of bounded moves, from the bounded state that the tasks were to the one that they are.
pub fn moves_join()
    ensures { MovesJoin }
{}
