//! The graph that a program is lowered to obeys every rule of graphs. One law and its lemmas; there is no code that runs.
#![tactic(auto)]

mod laws;

pub use laws::lowered_graphs_obey;
