//! What items weigh, and which functions are flat.
#![tactic(auto)]

mod flat;
mod laws;
mod lists;
mod tally;
mod telling;
mod uses;
mod weighing;

pub use flat::{FlatRule, flat_numbers};
pub use laws::flats_are_flats;
pub use tally::{product, sum};
pub use telling::weight;
pub use uses::{Use, Weights};
pub use weighing::{OwnWeights, Tally};
