//! How many functions and objects the graph has that a program is lowered to. One law and its lemmas; there is no code that runs.
#![tactic(auto)]

mod laws;

pub use laws::lowered_graphs_are_small;
