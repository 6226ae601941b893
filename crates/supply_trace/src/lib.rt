//! Supplies: the refills that a device wakes by, in boxes, and their text.
#![tactic(auto)]

mod bench;
mod failing;
mod queue;
mod recorded;
mod supply;
#[cfg(test)]
mod tests;
mod text;
mod worst;

pub use bench::Bench;
pub use failing::Failing;
pub use recorded::Recorded;
pub use supply::{Given, Supply};
pub use text::{TraceFault, rows};
pub use worst::Worst;
