//! The job `plan`: the plan of a program's checkpoints for a board is told.
#![tactic(auto)]

mod job;
mod planned;
mod report;
mod room;

pub use job::PlanJob;
pub use planned::plan;
