//! What operations weigh on a board: the two views of the cost of an operation, as code with the homes of its objects, and as a base with reads and
//! writes of each object, tell the same.
#![tactic(auto)]

mod law;
mod numbers;
mod weighing;

pub use law::weights_are_costs;
pub use weighing::OnBoard;
