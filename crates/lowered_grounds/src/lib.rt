//! The graph that a program is lowered to does what the program means. Lemmas and laws; there is no code that runs.
#![tactic(auto)]

mod laws;

pub use laws::{graphs_stand_alone, lowered_graphs_behave};
