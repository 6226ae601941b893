//! What a program is lowered to. The definitions stand in specs/; here are the types that they and the code share.
#![tactic(auto)]

mod homes;
mod loops;
mod numbering;
mod positions;

pub use homes::Homes;
pub use loops::Count;
pub use numbering::Numbering;
pub use positions::Position;
