//! Which functions are flat, what they cost, and which objects they touch.
#![tactic(auto)]

mod costs;
mod lists;
mod telling;

pub use costs::flat_costs;
pub use telling::{Summary, summaries};
