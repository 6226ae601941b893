//! What runs through items cost.
#![tactic(auto)]

ghost use Rattle.weighed_runs.specs.Spending.{BodiesAreParts, BodiesCostAtMost, RunsCostAtMost};

/// A run of a graph from the first of some items on costs, until control stands behind them, at most what their weight says:
/// with the homes in force among the items, and with all objects in FRAM in the functions that are called.
pub fn runs_cost_at_most()
    ensures runs { RunsCostAtMost }
    ensures parts { BodiesAreParts }
    // In particular a run from a function's entry, until it goes back or ends.
    ensures bodies { BodiesCostAtMost }
{}
