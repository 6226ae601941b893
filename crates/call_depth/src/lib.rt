//! How deep calls nest in a graph, from `main` on.
#![tactic(auto)]

mod depth;
mod level;
mod lists;

pub use depth::call_depth;
