//! The chains of a body of items, from what is known of the graph, and the cheapest plan of each: where its heads stand, and
//! which objects live in SRAM between them.
#![tactic(auto)]

mod conditional;
mod cutting;
mod explaining;
mod flat;
mod joining;
mod knowledge;
mod laws;
mod leaves;
mod lists;
mod pieces;
mod placing;
mod plan;
mod sums;
mod telling;
mod turning;
mod weighing;

pub use chain_plans::Stretch;
pub use explaining::Explained;
pub use knowledge::Knowledge;
pub use laws::one_turn_is_tested;
pub use plan::{Chain, put_chains};
pub use sums::add;
pub use telling::{ExplainedChain, put_explained};
