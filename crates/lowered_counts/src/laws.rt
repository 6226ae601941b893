//! How large lowered graphs are.

ghost use Rattle.lowered_counts.specs.Counts.{GraphsAreSmall};

/// The graph of every sound program whose names are in scope has few functions and objects, where it has at most 4,096 operations.
pub fn lowered_graphs_are_small()
    ensures { GraphsAreSmall }
{}
