//! Two ways to say what an operation costs.

ghost use Rattle.board_weights.specs.OnBoard.{WeightsAreCosts};

/// Of each operation of a graph, the weight of its code where some objects are in SRAM is what its base and its reads and writes
/// of each object cost.
pub fn weights_are_costs()
    ensures { WeightsAreCosts }
{}
