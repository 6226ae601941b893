//! The job `run`: an image is emulated on an input, over the rows of its supplies.
#![tactic(auto)]

mod job;
mod opened_run;
mod run_contents;
mod run_texts;

pub use job::RunJob;
pub use opened_run::{OpenedRun, open_run, show_run};
