//! The job `say`: the plain meaning of a program is told on an input.
#![tactic(auto)]

mod job;
mod opened_say;

pub use job::SayJob;
pub use opened_say::{OpenedSay, open_say, show_say};
