//! The job `check`: an image is tested by the rules of its certificate on a board.
#![tactic(auto)]

mod check_contents;
mod check_texts;
mod checked;
mod job;

pub use checked::check;
pub use job::CheckJob;
