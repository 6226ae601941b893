//! What holds of the code of every graph that obeys the rules.

ghost use Rattle.graph_code.specs.Homes.{ObjectsHaveHomes};
ghost use Rattle.graph_code.specs.Order.{OperationsStandInOrder, RunsBeginFirst};

/// Objects that need no more bytes than there are stand apart from each other, from the words of boot and from the call stack; and in the
/// code of a graph of one function control begins with the first operation, and goes on to the one behind or to one of the code.
pub fn graphs_are_laid_out()
    ensures homes { ObjectsHaveHomes }
    ensures order { OperationsStandInOrder }
    ensures first { RunsBeginFirst }
{}
