//! A graph that a program is lowered to carries the program, as images of graphs ask for. Lemmas and one law; there is no code that runs.
#![tactic(auto)]

mod laws;

pub use laws::lowered_graphs_carry;
