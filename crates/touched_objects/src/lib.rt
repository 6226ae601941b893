//! Which objects each function touches.
#![tactic(auto)]

mod flags;
mod lists;
mod names;
mod table;

pub use table::{Touched, touching};
