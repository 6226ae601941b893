//! The code of each operation, at the places that its objects have.
#![tactic(auto)]

mod instrs;
mod laws;
mod making;

pub use instrs::Instrs;
pub use laws::effects_are_the_graphs;
pub use making::{Places, template};
