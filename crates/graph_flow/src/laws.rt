//! Two ways to say what a graph does.

ghost use Rattle.graph_flow.specs.GraphFlow.{GraphsAreFlows, GraphsObey};

/// The flow of a graph by the rules behaves as the graph does, operation by operation, and obeys all that code that is laid out for it
/// rests on.
pub fn graphs_are_flows()
    ensures behaves { GraphsAreFlows }
    ensures obeys { GraphsObey }
{}
