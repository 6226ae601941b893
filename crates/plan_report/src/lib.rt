//! The report of a plan: for each function of a graph a line, and under each that is split the lines of its chains.
#![tactic(auto)]

mod chains;
mod functions;
mod lists;
mod names;
mod planned;

pub use functions::report;
pub use names::names_stand_as_they_are;
pub use planned::planned_report;
