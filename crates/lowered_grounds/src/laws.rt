//! What every lowered graph does.

ghost use Rattle.lowered_grounds.specs.Laws.{GraphsStandAlone, LoweredGraphsBehave};

use c_tree::steps_are_bounded;

/// The graph of every sound program whose names are in scope does what the program means, on every input and from every beginning of its
/// objects: it puts the same words, and ends or traps as the program does, with at most six operations a step; and what it has put in m
/// operations are the words of the program in some N (m + 1) steps at most, where N is the number of the program's nodes, with the same end
/// or trap.
pub fn lowered_graphs_behave()
    ensures behave { LoweredGraphsBehave }
{
    steps_are_bounded();
}

/// The graph of a sound program whose names are in scope has one function exactly where no call of a function stands in the body of `main`.
pub fn graphs_stand_alone()
    ensures alone { GraphsStandAlone }
{}
