//! What stands in the code of sections, position by position: heads, moves of objects, operations, and the counting of turns.
#![tactic(auto)]

mod frame;
mod lists;
mod moves;
mod placing;
mod position;
mod section;

pub use placing::{Laid, lay};
pub use position::{Goal, Position, What};
pub use section::{Section, Shape};
