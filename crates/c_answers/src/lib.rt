//! The answer to all that was found of a text: its typed program, or of its type faults the one that is answered.
#![tactic(auto)]

mod answered;
mod cycles;
mod first_fault;

pub use answered::answer;
pub use cycles::first_on_cycle;
pub use first_fault::FirstFault;
