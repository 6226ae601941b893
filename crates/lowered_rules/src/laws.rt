//! What holds of every graph that a program is lowered to.

ghost use Rattle.lowered_rules.specs.Obeying.{GraphsObey};

/// The graph of every sound program whose names are in scope obeys every rule of graphs, where it has at most 4,096 operations.
pub fn lowered_graphs_obey()
    ensures { GraphsObey }
{}
