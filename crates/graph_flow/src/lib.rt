//! A graph as a flow that code is laid out for.
#![tactic(auto)]

mod laws;

pub use laws::graphs_are_flows;
