//! The jobs of the command line, over any store of files and any output.
#![tactic(auto)]

mod call;

pub use call::{schematic, words_files_and_boxes_decide_one};
pub use job_files::{BoardRefusal, ImageRefusal, ProgramRefusal, Refusal, Status};
