//! What holds of every run of a graph that obeys the rules.

ghost use Rattle.flow_graph.specs.Laws.{GraphsAreClosed, NothingIsMissing, OperationsFallOn, RunsHaveResults, RunsStand, WritesAreWithin};

/// The rules of every graph are enough for a run: control stays within a function but for calls and returns, and goes on to the
/// operation behind but at a Go and a test that isn't passed, the objects keep
/// their sizes, no operation is missing on the way, each write lies within an object, and all that comes of the run are words and
/// traps of the program's own.
pub fn graphs_are_run()
    ensures closed { GraphsAreClosed }
    ensures fall_on { OperationsFallOn }
    ensures stand { RunsStand }
    ensures never_lost { NothingIsMissing }
    ensures within { WritesAreWithin }
    ensures results { RunsHaveResults }
{}
