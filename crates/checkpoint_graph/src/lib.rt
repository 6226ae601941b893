//! Where the heads of a graph stand and which objects live in SRAM between them: its chains and their cheapest plans.
#![tactic(auto)]

mod arrays;
mod budget;
mod explaining;
mod known;
mod lists;
mod placing;
mod touched;
mod turn;

pub use chain_units::{Chain, Explained, ExplainedChain, Stretch};
pub use explaining::explain;
pub use placing::{Placing, PlanFault, plan};
